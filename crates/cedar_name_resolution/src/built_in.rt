//! The built-in types and their aliases. An alias stands only where no type of its name is declared
//! (Cedar's RFC 24).

ghost use Rattle.std.specs.Prelude.{if◌then◌else◌, ◌≡◌, ◌↔◌, ◌++◌, [], ◌∷◌, Contains, IfOk, IsTrue, OnOk, map};
ghost use Rattle.cedar_name_resolution.specs.Words.{None, built_in_name, built_in_types, built_ins, extension_expr, free_aliases, held_names, id_text, name_of, named_types, plain_name, type_expr, type_names, variant_expr, written_common};

use crate::defs::{AllDefs, WrittenName};
use crate::written::{DeclaredCommonType, Written};
use cedar_ast::{Extensions, Id, InternalName, M, Name, UnreservedId, identifier};
use cedar_schema_ast::json_schema::{Type, TypeVariant};
use std::alloc::Global;

/// A built-in type: its base name, and its type.
type BuiltInType<N> = (Id, Type<N>);

/// A type variant as a type, without a location.
fn plain<N: WrittenName + Drop>(ty: TypeVariant<N>) -> Type<N>
    ensures { type_expr N (N.refer None) result ≡ variant_expr N (N.refer None) ty }
{
    Type::Plain { ty, loc: None }
}

/// A type in which no name is written, so that its namespace doesn't matter.
fn nowhere<N: WrittenName + Drop>(declared: Type<N>) -> Written<Type<N>>
    ensures namespace { result.namespace ≡ None }
    ensures declared { result.declared ≡ declared }
{
    Written {
        namespace: None,
        declared,
    }
}

/// The extension type of a name.
fn extension_type<N: WrittenName + Drop>(alloc: Global, name: &Name) -> M<Type<N>>
    ensures { IfOk result (λ ty. type_expr N (N.refer None) ty
        ≡ extension_expr (plain_name name.now).base) }
{
    let text = String::from_str(alloc, name.basename().as_str())?;
    match UnreservedId::new(text) {
        Some(name) => Ok(plain(TypeVariant::Extension { name })),
        None => unreachable!(),
    }
}

/// The built-in types under their base names: the primitive types, and the extension types in the
/// order in which they were handed in.
fn built_in_types<N: WrittenName + Drop>(
    alloc: Global,
    extensions: &Extensions,
) -> M<Vec<BuiltInType<N>>>
    ensures { IfOk result (λ types. named_types N (N.refer None) types.items
        ≡ built_in_types extensions.now) }
{
    let mut types = Vec::new(alloc);
    types.push((identifier(alloc, "Bool")?, plain(TypeVariant::Boolean)))?;
    types.push((identifier(alloc, "Long")?, plain(TypeVariant::Long)))?;
    types.push((identifier(alloc, "String")?, plain(TypeVariant::String)))?;
    for name in extensions.ext_types() {
        let ty = extension_type(alloc, name)?;
        types.push((name.basename().clone()?, ty))?;
    }
    Ok(types)
}

/// The full name of a built-in type: its base name in the namespace `__cedar`.
fn built_in_type_name(alloc: Global, word: &Id) -> M<InternalName>
    ensures { IfOk result (λ name. name_of name ≡ built_in_name (id_text word.now)) }
{
    let mut path = Vec::new(alloc);
    path.push(identifier(alloc, "__cedar")?)?;
    Ok(InternalName::new(word.clone()?, path, None))
}

/// Built-in types under their full names.
fn built_ins<N: WrittenName + Drop>(
    alloc: Global,
    types: Vec<BuiltInType<N>>,
) -> M<Vec<DeclaredCommonType<N>>>
    ensures { IfOk result (λ named.
        written_common N N.refer named.items ≡ map (λ it.
        (built_in_name it.0, it.1)) (named_types N (N.refer None) types.items)) }
{
    let mut named = Vec::new(alloc);
    for (word, ty) in types {
        named.push((built_in_type_name(alloc, &word)?, nowhere(ty)))?;
    }
    Ok(named)
}

/// Whether a type of the name is declared, common or entity.
fn is_declared(declared: &AllDefs, name: &InternalName) -> bool
    ensures { IsTrue result ↔ Contains (type_names (held_names declared.now)) (name_of name.now) }
{
    declared.is_defined_as_common(name) || declared.is_defined_as_entity(name)
}

/// Adds a common type if its name is free.
fn add_free<N: WrittenName + Drop>(
    named: &mut Vec<DeclaredCommonType<N>>,
    name: InternalName,
    ty: Type<N>,
    is_free: bool,
) -> M<()>
    ensures { OnOk result (written_common N N.refer named.new.items
        ≡ (if is_free then written_common N N.refer named.old.items
        ++ (name_of name, type_expr N (N.refer None) ty) ∷ []
        else written_common N N.refer named.old.items)) }
{
    if is_free {
        named.push((name, nowhere(ty)))?;
    }
    Ok(())
}

/// The aliases of built-in types: each under its base name alone, unless a type of that name is
/// declared.
fn aliases<N: WrittenName + Drop>(
    alloc: Global,
    types: Vec<BuiltInType<N>>,
    declared: &AllDefs,
) -> M<Vec<DeclaredCommonType<N>>>
    ensures { IfOk result (λ named. written_common N N.refer named.items
        ≡ free_aliases (type_names (held_names declared.now))
        (named_types N (N.refer None) types.items)) }
{
    let mut named = Vec::new(alloc);
    for (word, ty) in types {
        let name = InternalName::new(word, Vec::new(alloc), None);
        let is_free = !is_declared(declared, &name);
        add_free(&mut named, name, ty, is_free)?;
    }
    Ok(named)
}

/// The common types that no fragment declares, where these names are declared: the built-in types,
/// and after them their aliases.
pub(crate) fn built_in_common_types<N: WrittenName + Drop>(
    alloc: Global,
    declared: &AllDefs,
    extensions: &Extensions,
) -> M<Vec<DeclaredCommonType<N>>>
    ensures { IfOk result (λ types. written_common N N.refer types.items
        ≡ built_ins extensions.now ++ free_aliases (type_names (held_names declared.now))
        (built_in_types extensions.now)) }
{
    let mut types = built_ins(alloc, built_in_types(alloc, extensions)?)?;
    let mut aliases = aliases(alloc, built_in_types(alloc, extensions)?, declared)?;
    types.append(&mut aliases)?;
    Ok(types)
}
