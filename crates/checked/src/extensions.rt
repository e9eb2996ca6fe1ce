//! The sample extension.

ghost use Rattle.std.specs.Prelude.{IfOk};
ghost use Rattle.cedar_ast.specs.Words.{TypeNamesFit, extension_types};

use crate::names::name;
use cedar_ast::{CoreSchemaType, ExtensionFunction, Extensions};
use std::alloc::Global;
use std::collections::BTreeMap;
use std::test::Fail;

/// The function `ip`, which makes an `ipaddr` of a text.
fn ip(alloc: Global) -> Result<ExtensionFunction, Fail> {
    let arg_types = vec![in alloc; CoreSchemaType::String]?;
    let name = name(alloc, "ipaddr")?;
    Ok(ExtensionFunction {
        arg_types,
        return_type: Some(CoreSchemaType::Extension { name }),
    })
}

/// The sample extension: the type `ipaddr`, and the function `ip` that makes one of a text.
pub fn sample_extensions(alloc: Global) -> Result<Extensions, Fail>
    ensures fits { IfOk result (λ extensions. TypeNamesFit (extension_types extensions)) }
{
    let mut functions = BTreeMap::new(alloc);
    functions.insert(name(alloc, "ip")?, ip(alloc)?)?;
    let types = vec![in alloc; name(alloc, "ipaddr")?]?;
    let extensions = Extensions::new(types, functions);
    if extensions.type_names_fit() {
        return Ok(extensions);
    }
    Err(Fail::from("unfit extension types"))
}
