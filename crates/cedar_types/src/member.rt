//! Membership of values in types.

ghost use Rattle.std.specs.Prelude.{◌≡◌, ◌↔◌, ◌⊎◌, IsTrue, true, false, IfErr};
ghost use Rattle.cedar_types.specs.Words.{EachTree, FieldsMeet, Gives, Has, HasFieldsBy, HasTruth, HasUid, Included, IsMembership, IsUnknown, MayGive, MayHave, Meets, NamesListed, SomeTree, entries_of, entry_names, field_names, fields_of, is_open, kind_ty, plain_name, tree_of, trees_of, ty_of, uid_of, value_expr};

use crate::attributes::Attributes;
use crate::entity_kind::EntityKind;
use crate::entries_left::EntriesLeft;
use crate::types::Type;
use cedar_ast::{EntityUID, ExtensionFunctionLookupError, Extensions, Name, RestrictedExpr, Value};
use cedar_type_rules::{BoolType, OpenTag};
use std::collections::BTreeMap;

/// Whether a value has a type, or the lookup fault of a function that it calls.
type Answer<'v> = Result<bool, ExtensionFunctionLookupError<'v>>;

/// What two parts answer together: yes where both say yes, no where one says no, and else the fault
/// of one of them.
fn both<'v>(first: Answer<'v>, second: Answer<'v>) -> Answer<'v>
    ensures yes { (result ≡ Ok true) ↔ ((first.entry ≡ Ok true) × (second.entry ≡ Ok true)) }
    ensures no { (result ≡ Ok false) ↔ ((first.entry ≡ Ok false) ⊎ (second.entry ≡ Ok false)) }
    ensures fault { IfErr result (λ error. (first.entry ≡ Err error) ⊎ (second.entry ≡ Err error)) }
{
    match (first, second) {
        (Ok(true), second) => second,
        (Ok(false), _) => Ok(false),
        (Err(_), Ok(false)) => Ok(false),
        (Err(error), _) => Err(error),
    }
}

/// Whether a truth value is as is known.
fn has_truth(known: &BoolType, value: bool) -> bool
    ensures { IsTrue result ↔ HasTruth value known.now }
{
    match known {
        BoolType::AnyBool => true,
        BoolType::True => value,
        BoolType::False => !value,
    }
}

/// Whether an entity is of a kind.
fn has_uid(kind: &EntityKind, uid: &EntityUID) -> bool
    ensures { IsTrue result ↔ HasUid (uid_of uid.now) (kind_ty kind.now) }
{
    match kind {
        EntityKind::AnyEntity => true,
        EntityKind::Entity(lub) => lub.contains(uid.entity_type()),
    }
}

/// Whether each attribute of a record is listed.
///
/// It goes over both together, once.
fn all_listed(values: &BTreeMap<String, RestrictedExpr>, attrs: &Attributes) -> bool
    ensures { IsTrue result ↔ Included (entry_names (entries_of values.now))
        (field_names (fields_of attrs.now)) }
{
    let mut at = 0;
    for name in values.keys() {
        let (place, is_there) = attrs.attrs.seek(at, name);
        if !is_there {
            return false;
        }
        at = place;
    }
    true
}

/// Whether a record has no attribute that isn't listed, but where it is open.
fn only_listed(
    values: &BTreeMap<String, RestrictedExpr>,
    attrs: &Attributes,
    openness: OpenTag,
) -> bool
    ensures { IsTrue result ↔ NamesListed (is_open openness) (entry_names (entries_of values.now))
        (field_names (fields_of attrs.now)) }
{
    match openness {
        OpenTag::OpenAttributes => true,
        OpenTag::ClosedAttributes => all_listed(values, attrs),
    }
}

/// Whether a call gives a value of an extension type, or the lookup fault of its function.
fn call_has<'v>(
    function: &'v Name,
    args: &'v [RestrictedExpr],
    name: &Name,
    extensions: &Extensions,
) -> Answer<'v>
    ensures { let call = plain_name function.now in
        IsMembership result (Gives extensions.now call (trees_of args.now) (plain_name name.now))
        (MayGive extensions.now call (trees_of args.now) (plain_name name.now))
        (λ unknown. (call ≡ unknown) × IsUnknown extensions.now unknown) }
{
    let known = extensions.func(function)?;
    Ok(known.gives(args, name, extensions))
}

/// Whether each of the values has a type, or the lookup fault of a function that one calls. Past a
/// value that hasn't, none is looked at.
#[cycle(member)]
fn elements_have<'v>(values: &'v [RestrictedExpr], ty: &Type, extensions: &Extensions) -> Answer<'v>
    ensures { let element = ty_of ty.now in
        IsMembership result (EachTree (λ value.
        Has extensions.now value element) (trees_of values.now))
        (EachTree (λ value. MayHave extensions.now value element) (trees_of values.now))
        (λ unknown. SomeTree (λ value.
        Meets extensions.now unknown value element) (trees_of values.now)) }
{
    let mut so_far = Ok(true);
    for value in values {
        so_far = both(so_far, ty.typecheck_restricted_expr(value, extensions));
        if let Ok(false) = so_far {
            return Ok(false);
        }
    }
    so_far
}

/// Whether the listed attributes have their types and those that are required are there, or the
/// lookup fault of a function that the value of one calls. Past an attribute that resolves it, none
/// is looked at.
///
/// It goes over both together, once.
#[cycle(member)]
fn fields_have<'v>(
    values: &'v BTreeMap<String, RestrictedExpr>,
    attrs: &Attributes,
    extensions: &Extensions,
) -> Answer<'v>
    ensures { let fields = fields_of attrs.now in
        IsMembership result (HasFieldsBy (Gives extensions.now) (entries_of values.now) fields)
        (HasFieldsBy (MayGive extensions.now) (entries_of values.now) fields)
        (λ unknown. FieldsMeet extensions.now unknown (entries_of values.now) fields) }
{
    let mut so_far = Ok(true);
    let mut left = EntriesLeft::new(values);
    for (name, attribute) in attrs.attrs.as_slice() {
        let answer = match left.value_at(name) {
            Some(value) => (*attribute.attr_type).typecheck_restricted_expr(value, extensions),
            None => Ok(!attribute.is_required),
        };
        so_far = both(so_far, answer);
        if let Ok(false) = so_far {
            return Ok(false);
        }
    }
    so_far
}

impl Type {
    /// Whether the value that an expression stands for has this type.
    ///
    /// A call of an extension function has the extension type that the function returns, if the
    /// arguments fit. Where no function has the name, and the value would have the type if it gave
    /// one of the extension type that is asked for there, the answer is the lookup fault.
    ///
    /// Of a uid its type alone is looked at, and not whether it is one of the choices of an
    /// enumerated entity type or an action of a schema, as `ValidatorSchema::entity_exists` does.
    #[cycle(member)]
    pub fn typecheck_restricted_expr<'v>(
        &self,
        expr: &'v RestrictedExpr,
        extensions: &Extensions,
    ) -> Result<bool, ExtensionFunctionLookupError<'v>>
        ensures has { (result ≡ Ok true) ↔ Has extensions.now (tree_of expr.now) (ty_of self.now) }
        ensures lacks { (result ≡ Ok false)
            ↔ ¬ MayHave extensions.now (tree_of expr.now) (ty_of self.now) }
        ensures fault { IfErr result (λ error.
            Meets extensions.now (plain_name error.name.now) (tree_of expr.now) (ty_of self.now)) }
    {
        match (self, expr) {
            (Type::Bool(known), RestrictedExpr::Bool(value)) => Ok(has_truth(known, *value)),
            (Type::Long, RestrictedExpr::Long(_)) => Ok(true),
            (Type::String, RestrictedExpr::String(_)) => Ok(true),
            (Type::Entity(kind), RestrictedExpr::EntityUid(uid)) => Ok(has_uid(kind, uid)),
            (Type::Set { element_type }, RestrictedExpr::Set(values)) => match element_type {
                None => Ok(true),
                Some(element) => elements_have(values, element, extensions),
            },
            (
                Type::Record {
                    attrs,
                    open_attributes,
                },
                RestrictedExpr::Record(values),
            ) => {
                if only_listed(values, attrs, *open_attributes) {
                    fields_have(values, attrs, extensions)
                } else {
                    Ok(false)
                }
            }
            (Type::ExtensionType { name }, RestrictedExpr::ExtensionCall { function, args }) =>
                call_has(function, args, name, extensions),
            _ => Ok(false),
        }
    }

    /// Whether a value has this type, as of the expression that stands for it.
    ///
    /// Where a call names no function, and the value would have the type if that gave one of the
    /// extension type that is asked for there, the answer is the lookup fault. Of a uid its type
    /// alone is looked at, and not whether it exists in a schema.
    pub fn typecheck_value<'v>(
        &self,
        value: &'v Value,
        extensions: &Extensions,
    ) -> Result<bool, ExtensionFunctionLookupError<'v>>
        ensures has { (result ≡ Ok true)
            ↔ Has extensions.now (tree_of (value_expr value.now)) (ty_of self.now) }
        ensures lacks { (result ≡ Ok false)
            ↔ ¬ MayHave extensions.now (tree_of (value_expr value.now)) (ty_of self.now) }
        ensures fault { IfErr result (λ error.
            Meets extensions.now (plain_name error.name.now) (tree_of (value_expr value.now))
            (ty_of self.now)) }
    {
        self.typecheck_restricted_expr(value.expr(), extensions)
    }
}
