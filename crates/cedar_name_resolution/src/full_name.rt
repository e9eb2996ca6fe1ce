//! Full names of what is declared.

ghost use Rattle.std.specs.Prelude.{◌≡◌, IfOk, map};
ghost use Rattle.cedar_name_resolution.specs.Words.{id_text, name_loc, name_of, name_within, namespace_name, path_within};

use cedar_ast::{Id, InternalName, Loc, M};
use std::alloc::Global;

/// The path of what is declared in a namespace.
fn namespace_path(alloc: Global, namespace: Option<&InternalName>) -> M<Vec<Id>>
    ensures { IfOk result (λ path.
        map id_text path.items ≡ path_within (namespace_name namespace.entry)) }
{
    let mut path = Vec::new(alloc);
    let Some(namespace) = namespace else {
        return Ok(path);
    };
    for part in namespace.path() {
        path.push(part.clone()?)?;
    }
    path.push(namespace.basename().clone()?)?;
    Ok(path)
}

/// The full name of an id in a namespace.
pub fn name_in(
    alloc: Global,
    namespace: Option<&InternalName>,
    id: Id,
    loc: Option<Loc>,
) -> M<InternalName>
    ensures name { IfOk result (λ name.
        name_of name ≡ name_within (namespace_name namespace.entry) (id_text id)) }
    ensures loc { IfOk result (λ name. name_loc name ≡ loc) }
{
    Ok(InternalName::new(id, namespace_path(alloc, namespace)?, loc))
}

/// The full name of an id in a namespace, shared, so that all that will speak of what is declared
/// under it shares it.
pub fn full_name(
    alloc: Global,
    namespace: Option<&InternalName>,
    id: Id,
    loc: Option<Loc>,
) -> M<InternalName>
    ensures name { IfOk result (λ name.
        name_of name ≡ name_within (namespace_name namespace.entry) (id_text id)) }
    ensures loc { IfOk result (λ name. name_loc name ≡ loc) }
{
    name_in(alloc, namespace, id, loc)?.into_shared()
}
