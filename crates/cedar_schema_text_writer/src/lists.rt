//! Lists in brackets.

ghost use Rattle.std.specs.Prelude.{List, OnOk, string_bytes};
ghost use Rattle.cedar_ast.specs.Words.{items_of};
ghost use Rattle.cedar_schema_text_writer.specs.Pieces.{Adds, Piece, list_pieces, others_pieces};

use crate::names::{put_name, put_path};
use crate::pieces::put_quoted;
use cedar_ast::{Eid, M, NonEmpty};
use cedar_schema_ast::json_schema::{ActionEntityUID, RawName};

/// What is written as an item of a list.
///
/// The ghost member is what its pieces are.
pub(crate) trait Item {
    ghost pieces: { Self → List Piece };

    /// Writes the item.
    fn put(&self, out: &mut String) -> M<()>
        ensures { OnOk result (Adds out.old out.new (pieces self.now)) };
}

/// Writes the items of a list behind its first.
fn put_others<T: Item>(out: &mut String, others: &[T]) -> M<()>
    ensures { OnOk result (Adds out.old out.new (others_pieces T.pieces others.now)) }
{
    for item in others {
        out.push_str(", ")?;
        item.put(out)?;
    }
    Ok(())
}

/// Writes a list.
pub(crate) fn put_list<T: Item>(out: &mut String, items: &[T]) -> M<()>
    ensures { OnOk result (Adds out.old out.new (list_pieces T.pieces items.now)) }
{
    out.push_str("[")?;
    if let [first, others @ ..] = items {
        first.put(out)?;
        put_others(out, others)?;
    }
    out.push_str("]")?;
    Ok(())
}

/// Writes a list that isn't empty.
pub(crate) fn put_some<T: Item>(out: &mut String, items: &NonEmpty<T>) -> M<()>
    ensures { OnOk result (Adds out.old out.new (list_pieces T.pieces (items_of items.now))) }
{
    out.push_str("[")?;
    items.head.put(out)?;
    put_others(out, items.tail.as_slice())?;
    out.push_str("]")?;
    Ok(())
}

impl Item for Eid {
    ghost use Rattle.std.specs.Prelude.{◌∷◌, []};
    ghost use Rattle.cedar_ast.specs.Words.{eid_text};
    ghost use Rattle.cedar_schema_text_writer.specs.Pieces.{quoted};

    ghost pieces = { λ id. quoted (eid_text id) ∷ [] };

    /// Writes the id of an entity, as a quoted text.
    fn put(&self, out: &mut String) -> M<()> {
        put_quoted(out, self.as_str())
    }
}

impl Item for RawName {
    ghost use Rattle.cedar_schema_text_writer.specs.Layout.{raw_pieces};

    ghost pieces = { raw_pieces };

    /// Writes the name of a type.
    fn put(&self, out: &mut String) -> M<()> {
        put_path(out, self.as_internal())
    }
}

impl Item for ActionEntityUID<RawName> {
    ghost use Rattle.cedar_schema_text_writer.specs.Layout.{parent_pieces};

    ghost pieces = { parent_pieces };

    /// Writes a parent of an action: its id alone, or behind its type as a quoted text.
    fn put(&self, out: &mut String) -> M<()> {
        match &self.ty {
            None => put_name(out, self.id.as_str()),
            Some(ty) => {
                put_path(out, ty.as_internal())?;
                out.push_str("::")?;
                put_quoted(out, self.id.as_str())
            }
        }
    }
}
