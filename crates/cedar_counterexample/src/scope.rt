//! Which uids exist in an old and in a new version of a schema.

ghost use Rattle.std.specs.Prelude.{◌≡◌, IfOk, IfSome, None};
ghost use Rattle.cedar_counterexample.specs.Words.{HasUidOf, IsActionType, IsExistingFor, IsLostUid, IsLostUidOf, IsName, KeepsIdsOf, KeepsUids, PlainName, PlainUid, type_name, uid_of};

use cedar_ast::{EntityType, EntityUID, M};

/// Which uids exist in an old and in a new version of a schema.
///
/// The ghost members are what contracts speak of: which uids exist in either version.
pub trait Scope {
    ghost ExistsInOld: { Self → PlainUid → Type 0 };

    ghost ExistsInNew: { Self → PlainUid → Type 0 };

    /// A uid of the old version that is of the type of this one: this one where it exists there.
    /// None where the old version has no uid of the type. Out of memory is the only refusal.
    fn existing(&self, uid: &EntityUID) -> M<Option<EntityUID>>
        ensures none { IfOk result (λ found. found ≡ None
            → ¬ HasUidOf (ExistsInOld self.now) (uid_of uid.now).ty) }
        ensures some { IfOk result (λ found. IfSome found (λ it.
            IsExistingFor (ExistsInOld self.now) (uid_of uid.now) (uid_of it))) };

    /// A uid of an entity type that exists in the old version and not in the new, if there is one.
    fn lost_of(&self, ty: &EntityType) -> Option<&EntityUID>
        ensures none { result ≡ None
            → KeepsIdsOf (ExistsInOld self.now) (ExistsInNew self.now) (type_name ty.now) }
        ensures some { IfSome result (λ uid. IsLostUidOf (ExistsInOld self.now)
            (ExistsInNew self.now) (type_name ty.now) (uid_of uid.now)) };

    /// A uid of any type that exists in the old version and not in the new, if there is one.
    fn lost(&self) -> Option<&EntityUID>
        ensures none { result ≡ None → KeepsUids (ExistsInOld self.now) (ExistsInNew self.now) }
        ensures some { IfSome result (λ uid.
            IsLostUid (ExistsInOld self.now) (ExistsInNew self.now) (uid_of uid.now)) };

    ghost types_have_uids: { (scope : Self) (name : PlainName) → IsName name → ¬ IsActionType name
        → HasUidOf (ExistsInOld scope) name };
}
