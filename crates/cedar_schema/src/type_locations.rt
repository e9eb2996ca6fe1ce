//! Where types were written.

ghost use Rattle.std.specs.Prelude.{◌≡◌};
ghost use Rattle.cedar_schema.specs.TypeLocations.{location_of_type, location_of_variant};

use cedar_ast::Loc;
use cedar_schema_ast::json_schema::{Type, TypeVariant};

/// Where a type was written, if that is known: a set where its element was, all else where it was
/// itself.
#[cycle(type_locations)]
pub(crate) fn type_loc<N>(ty: &Type<N>) -> Option<Loc>
    ensures { result ≡ location_of_type N ty.now }
{
    match ty {
        Type::Plain { ty, loc } => variant_loc(ty, *loc),
        Type::CommonTypeRef { loc, .. } => *loc,
    }
}

/// Where a type variant was written, given its own location.
#[cycle(type_locations)]
fn variant_loc<N>(ty: &TypeVariant<N>, own: Option<Loc>) -> Option<Loc>
    ensures { result ≡ location_of_variant N ty.now own }
{
    match ty {
        TypeVariant::Set { element } => type_loc(element),
        TypeVariant::String => own,
        TypeVariant::Long => own,
        TypeVariant::Boolean => own,
        TypeVariant::Record(_) => own,
        TypeVariant::Entity { .. } => own,
        TypeVariant::EntityOrCommon { .. } => own,
        TypeVariant::Extension { .. } => own,
    }
}
