//! The check that no declared name would shadow another (Cedar's RFC 70).

ghost use Rattle.std.specs.Prelude.{◌≡◌, ◌⊎◌, IfOk, IfErr, IsTrue, OnOk, MatchOption, map, Contains, string_bytes};
ghost use Rattle.std.specs.List.{AllByRecursion};
ghost use Rattle.cedar_name_resolution.specs.Words.{IsPlainAction, IsShadowing, IsUnqualified, NoActionShadows, NoTypeShadows, PlainName, PlainUid, ShadowsType, fault_of, held_names, name_of, out_of_memory, type_names, uid_of};

use crate::defs::all_defs::AllDefs;
use cedar_ast::{EntityUID, InternalName, M, put};
use cedar_schema_semantics::SchemaError;
use std::collections::{BTreeMap, BTreeSet};

impl AllDefs {
    /// The unqualified name of a type that would shadow a name, if there is one.
    fn shadowed_by(&self, name: &InternalName) -> M<Option<InternalName>>
        ensures { IfOk result (λ found. MatchOption found
            ((plain : PlainName) → Contains (type_names (held_names self.now)) plain
            → ¬ ShadowsType plain (name_of name.now))
            (λ plain. Contains (type_names (held_names self.now)) (name_of plain)
            × ShadowsType (name_of plain) (name_of name.now))) }
    {
        if name.is_unqualified() || name.is_reserved() {
            return Ok(None);
        }
        let plain = InternalName::new(name.basename().clone()?, Vec::new(self.alloc), None);
        if self.is_defined_as_common(&plain) {
            return Ok(Some(plain));
        }
        if self.is_defined_as_entity(&plain) {
            return Ok(Some(plain));
        }
        Ok(None)
    }

    /// Refuses a type that would shadow one of some.
    fn check_types(&self, names: &BTreeSet<InternalName>) -> Result<(), SchemaError>
        requires { (name : PlainName) → Contains (map name_of names.now.keys) name
            → Contains (type_names (held_names self.now)) name }
        ensures none { OnOk result (NoTypeShadows (type_names (held_names self.now))
            (map name_of names.now.keys)) }
        ensures fault { IfErr result (λ error. (fault_of error ≡ out_of_memory)
            ⊎ IsShadowing (held_names self.now) (fault_of error)) }
    {
        for name in names {
            let found = self.shadowed_by(name)?;
            match found {
                Some(plain) => return Err(SchemaError::TypeShadowing(plain, name.clone()?)),
                None => {}
            }
        }
        Ok(())
    }

    /// Whether the types of all actions are unqualified.
    fn are_actions_unqualified(&self) -> bool
        ensures { IsTrue result → (uid : PlainUid)
            → Contains (held_names self.now).actions uid → IsUnqualified uid.ty }
    {
        for uid in &self.action_defs {
            if !uid.entity_type().name().is_unqualified() {
                return false;
            }
        }
        true
    }

    /// The actions whose types are unqualified, by id.
    fn plain_actions(&self) -> M<BTreeMap<String, EntityUID>>
        ensures each { IfOk result (λ plain.
            AllByRecursion (λ entry. IsPlainAction (held_names self.now).actions
            (string_bytes entry.0) (uid_of entry.1)) plain.entries) }
        ensures all { IfOk result (λ plain.
            (uid : PlainUid) → Contains (held_names self.now).actions uid → IsUnqualified uid.ty
            → Contains (map (λ entry. string_bytes entry.0) plain.entries) uid.eid) }
    {
        let mut plain = BTreeMap::new(self.alloc);
        for uid in &self.action_defs {
            if uid.entity_type().name().is_unqualified() {
                let id = String::from_str(self.alloc, uid.eid().as_str())?;
                put(&mut plain, id, uid.clone()?)?;
            }
        }
        Ok(plain)
    }

    /// Refuses an action that would shadow another.
    fn check_actions(&self) -> Result<(), SchemaError>
        ensures none { OnOk result (NoActionShadows (held_names self.now).actions) }
        ensures fault { IfErr result (λ error. (fault_of error ≡ out_of_memory)
            ⊎ IsShadowing (held_names self.now) (fault_of error)) }
    {
        if self.are_actions_unqualified() {
            return Ok(());
        }
        let plain = self.plain_actions()?;
        for uid in &self.action_defs {
            if uid.entity_type().name().is_unqualified() {
                continue;
            }
            match plain.get(uid.eid().as_str()) {
                Some(other) => {
                    return Err(SchemaError::ActionShadowing(other.clone()?, uid.clone()?));
                }
                None => {}
            }
        }
        Ok(())
    }

    /// Checks that no name would shadow another (RFC 70): an unqualified name of a type and a
    /// qualified one that isn't reserved must not have one base name, in any mix of common and
    /// entity types, and an action of an unqualified type and one of a qualified type must not
    /// have one id.
    ///
    /// It is refused with one of these kinds:
    ///
    /// - `TypeShadowing`: two names of types are such a pair, of which it names the unqualified
    ///   one first
    /// - `ActionShadowing`: two actions are such a pair, of which it names the one of the
    ///   unqualified type first
    /// - `Memory`: memory ran out
    pub fn rfc_70_shadowing_checks(&self) -> Result<(), SchemaError>
        ensures types { OnOk result (NoTypeShadows (type_names (held_names self.now))
            (type_names (held_names self.now))) }
        ensures actions { OnOk result (NoActionShadows (held_names self.now).actions) }
        ensures fault { IfErr result (λ error. (fault_of error ≡ out_of_memory)
            ⊎ IsShadowing (held_names self.now) (fault_of error)) }
    {
        self.check_types(&self.common_defs)?;
        self.check_types(&self.entity_defs)?;
        self.check_actions()?;
        Ok(())
    }
}
