//! Names of attributes, and types with these, as texts that stand for nothing else.

use cedar_schema::below::{Id, M, NameFault, Quoted};
use cedar_schema::{Attributes, OpenTag, Type};
use std::alloc::Global;

/// Adds the name of an attribute: as it is where it is an identifier, and else in quotes, as ids
/// stand in printed uids. Out of memory is the only refusal.
pub fn push_name(text: &mut String, name: &str) -> M<()> {
    match Id::from_str(*text.allocator(), name) {
        Ok(id) => Ok(text.push_str(id.as_str())?),
        Err(NameFault::Memory(refused)) => Err(refused),
        Err(_) => Ok(text.write(Quoted(name))?),
    }
}

/// Adds attributes in braces, each with a comma behind it.
#[cycle(spelled)]
fn push_attributes(text: &mut String, attrs: &Attributes) -> M<()> {
    text.push('{')?;
    for (name, attribute) in attrs.iter() {
        push_name(text, name.as_str())?;
        text.push_str(if attribute.is_required { ": " } else { "?: " })?;
        push_type(text, &attribute.attr_type)?;
        text.push(',')?;
    }
    Ok(text.push('}')?)
}

/// Adds a type as its `Display` prints it, but for the names of attributes that are no identifiers:
/// these stand in quotes. So two types have one text only where they are one. Out of memory is the
/// only refusal.
#[cycle(spelled)]
pub fn push_type(text: &mut String, ty: &Type) -> M<()> {
    match ty {
        Type::Set {
            element_type: Some(element),
        } => {
            text.push_str("Set<")?;
            push_type(text, element)?;
            Ok(text.push('>')?)
        }
        Type::Record {
            attrs,
            open_attributes,
        } => {
            if let OpenTag::OpenAttributes = open_attributes {
                text.push_str("__cedar::internal::OpenRecord")?;
            }
            push_attributes(text, attrs)
        }
        other => Ok(text.write(other)?),
    }
}
