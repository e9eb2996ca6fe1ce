//! Fitting of arguments to the core types of an extension function.

ghost use Rattle.std.specs.Prelude.{◌≡◌, ◌↔◌, IsTrue, Some, map};
ghost use Rattle.cedar_ast.specs.Words.{ArgumentsFit, EachTree, FieldsFit, Fits, NamesListed, Returns, argument_types, core_extension, core_fields_of, core_names, core_ty_of, entries_of, entry_names, plain_name, result_type, tree_of, trees_of, type_name};

use crate::core_schema_type::{CoreAttributeType, CoreSchemaType};
use crate::entity_type::EntityType;
use crate::extension::{ExtensionFunction, Extensions};
use crate::name::Name;
use crate::value::RestrictedExpr;
use std::collections::BTreeMap;

/// Whether two entity types have the same name.
fn is_same_type(ty: &EntityType, other: &EntityType) -> bool
    ensures { IsTrue result ↔ (type_name ty.now ≡ type_name other.now) }
{
    ty == other
}

impl ExtensionFunction {
    /// Whether the function returns values of this extension type.
    pub fn returns(&self, ty: &Name) -> bool
        ensures { IsTrue result ↔ (result_type self.now
            ≡ Some (core_extension (plain_name ty.now))) }
    {
        match &self.return_type {
            Some(CoreSchemaType::Extension { name }) => name.is_same(ty),
            _ => false,
        }
    }
}

impl Extensions {
    /// Whether a function of this name returns values of this extension type.
    pub fn returns(&self, function: &Name, ty: &Name) -> bool
        ensures { IsTrue result ↔ Returns self.now (plain_name function.now) (plain_name ty.now) }
    {
        match self.func(function) {
            Ok(function) => function.returns(ty),
            Err(_) => false,
        }
    }
}

/// Whether a record's names are listed, but where the record may have others.
fn names_listed(
    values: &BTreeMap<String, RestrictedExpr>,
    attrs: &BTreeMap<String, CoreAttributeType>,
    open_attrs: bool,
) -> bool
    ensures { IsTrue result ↔ NamesListed open_attrs (entry_names (entries_of values.now))
        (core_names (core_fields_of attrs.now)) }
{
    if open_attrs {
        return true;
    }
    for name in values.keys() {
        if !attrs.contains_key(name) {
            return false;
        }
    }
    true
}

/// Whether the listed attributes fit their types, and those that are required are there.
#[cycle(fits)]
fn fields_fit(
    values: &BTreeMap<String, RestrictedExpr>,
    attrs: &BTreeMap<String, CoreAttributeType>,
    extensions: &Extensions,
) -> bool
    ensures { IsTrue result ↔ FieldsFit extensions.now (entries_of values.now)
        (core_fields_of attrs.now) }
{
    for (name, attribute) in attrs {
        let fits = match values.get(name) {
            Some(value) => value.fits(&attribute.attr_type, extensions),
            None => !attribute.required,
        };
        if !fits {
            return false;
        }
    }
    true
}

/// Whether each of the values fits a core type.
#[cycle(fits)]
fn all_fit(values: &[RestrictedExpr], ty: &CoreSchemaType, extensions: &Extensions) -> bool
    ensures { IsTrue result ↔ EachTree (λ value.
        Fits extensions.now value (core_ty_of ty.now)) (trees_of values.now) }
{
    for value in values {
        if !value.fits(ty, extensions) {
            return false;
        }
    }
    true
}

impl RestrictedExpr {
    /// Whether the value fits a core type, as an argument of an extension function has to.
    ///
    /// A call fits an extension type that a known function of its name returns, whatever its
    /// arguments.
    #[cycle(fits)]
    pub fn fits(&self, ty: &CoreSchemaType, extensions: &Extensions) -> bool
        ensures { IsTrue result ↔ Fits extensions.now (tree_of self.now) (core_ty_of ty.now) }
    {
        match (self, ty) {
            (RestrictedExpr::Bool(_), CoreSchemaType::Bool) => true,
            (RestrictedExpr::Long(_), CoreSchemaType::Long) => true,
            (RestrictedExpr::String(_), CoreSchemaType::String) => true,
            (RestrictedExpr::Set(values), CoreSchemaType::EmptySet) => values.is_empty(),
            (RestrictedExpr::Set(values), CoreSchemaType::Set { element_ty }) => {
                all_fit(values, element_ty, extensions)
            }
            (RestrictedExpr::Record(values), CoreSchemaType::Record { attrs, open_attrs }) => {
                names_listed(values, attrs, *open_attrs) && fields_fit(values, attrs, extensions)
            }
            (RestrictedExpr::EntityUid(uid), CoreSchemaType::Entity { ty }) => {
                is_same_type(uid.entity_type(), ty)
            }
            (RestrictedExpr::ExtensionCall { function, .. }, CoreSchemaType::Extension { name }) =>
                extensions.returns(function, name),
            _ => false,
        }
    }
}

/// Whether the arguments fit the types pairwise, as far as both lists go.
fn arguments_fit(args: &[RestrictedExpr], types: &[CoreSchemaType], extensions: &Extensions) -> bool
    ensures { IsTrue result ↔ ArgumentsFit extensions.now (trees_of args.now)
        (map core_ty_of types.now) }
{
    for (arg, ty) in args.iter().zip(types) {
        if !arg.fits(ty, extensions) {
            return false;
        }
    }
    true
}

impl ExtensionFunction {
    /// Whether a call with these arguments gives a value of this extension type: the function
    /// returns it, and the arguments fit pairwise, as far as both lists go.
    pub fn gives(&self, args: &[RestrictedExpr], ty: &Name, extensions: &Extensions) -> bool
        ensures { IsTrue result ↔ ((result_type self.now
            ≡ Some (core_extension (plain_name ty.now)))
            × ArgumentsFit extensions.now (trees_of args.now) (argument_types self.now)) }
    {
        self.returns(ty) && arguments_fit(args, &self.arg_types, extensions)
    }
}
