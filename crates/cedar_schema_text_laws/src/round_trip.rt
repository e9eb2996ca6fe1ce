//! Fragments that are written as texts and read again.

ghost use Rattle.std.specs.Prelude.{◌≡◌, IfErr, IfOk};
ghost use Rattle.cedar_json.specs.DefinitionFormat.{written_fragment};
ghost use Rattle.cedar_schema_text_laws.specs.RoundTrip.{IsLost};
ghost use Rattle.cedar_schema_text_laws.specs.TextForm.{fragment_form};
ghost use Rattle.cedar_schema_text_writer.specs.Names.{first_beside};

use crate::sayable::fragment_holds;
use cedar_schema_ast::json_schema::{Fragment, RawName};
use cedar_schema_text::{TextFault, fragment_from_text};
use cedar_schema_text_writer::{TextWriteFault, fragment_to_text};
use std::alloc::Global;

/// Why a fragment doesn't come back through a text.
#[derive(Debug, Drop)]
pub enum Lost {
    /// It isn't written.
    Unwritten(TextWriteFault),
    /// Its text isn't read.
    Unread(TextFault),
}

/// What is read of the text that is written of a fragment beside the other fragments of its schema.
/// The text has this number.
///
/// It is the text form of the fragment. None is given just where the fragment can't be written,
/// where its text has 4 GiB or more, or where memory runs out.
pub fn through_text(
    alloc: Global,
    fragment: &Fragment<RawName>,
    beside: &[Fragment<RawName>],
    source: u32,
) -> Result<Fragment<RawName>, Lost>
    ensures form { IfOk result (λ it. written_fragment it
        ≡ fragment_form (first_beside fragment.now beside.now) (written_fragment fragment.now)) }
    ensures lost { IfErr result (IsLost (first_beside fragment.now beside.now) fragment.now) }
{
    match fragment_to_text(alloc, fragment, beside) {
        Err(fault) => Err(Lost::Unwritten(fault)),
        Ok(text) => {
            fragment_holds(fragment);
            match fragment_from_text(alloc, &text, source) {
                Ok(it) => Ok(it),
                Err(fault) => Err(Lost::Unread(fault)),
            }
        }
    }
}
