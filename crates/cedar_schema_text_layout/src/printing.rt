//! The text of a layout.

ghost use Rattle.std.specs.Prelude.{◌≡◌, ◌++◌, ◌∷◌, None, Some, IfOk, IsTrue, OnOk, map, string_bytes};
ghost use Rattle.cedar_schema_text_layout.specs.Relaid.{EachSpelled};
ghost use Rattle.cedar_schema_text_layout.specs.Separators.{IsParted, indent, separator_bytes};
ghost use Rattle.cedar_schema_text_layout.specs.Words.{AreSpelled, spelled_of};
ghost use Rattle.cedar_schema_text_layout.specs.declared.separator.Separator.TheVariants.{Nothing};

use crate::separator::{Behind, Separator};
use cedar_ast::M;
use cedar_schema_tokens::{Spelled, SpelledKind, Symbol};
use std::alloc::Global;

/// A line end, with two blanks for each level behind it.
fn push_line(out: &mut String, level: usize) -> M<()>
    ensures { OnOk result (string_bytes out.new ≡ string_bytes out.old ++ 10 ∷ indent level) }
{
    out.push('\n')?;
    for _level in 0..level {
        out.push_str("  ")?;
    }
    Ok(())
}

/// A separator.
fn push_separator(out: &mut String, separator: Separator) -> M<()>
    ensures { OnOk result
        (string_bytes out.new ≡ string_bytes out.old ++ separator_bytes separator) }
{
    match separator {
        Separator::Nothing => Ok(()),
        Separator::Blank => Ok(out.push(' ')?),
        Separator::Line(level) => push_line(out, level),
        Separator::EmptyLine(level) => {
            out.push('\n')?;
            push_line(out, level)
        }
    }
}

/// Whether nothing needs to stand between two tokens or comments.
fn may_touch(last: SpelledKind, next: SpelledKind) -> bool
    ensures { IsTrue result → IsParted (Some last) Nothing next }
{
    match last {
        SpelledKind::Comment => false,
        SpelledKind::Id => next != SpelledKind::Id,
        SpelledKind::Text => true,
        SpelledKind::Symbol(symbol) => symbol != Symbol::Colon,
    }
}

/// A separator that parts two tokens or comments: the one that is wanted, where it does.
fn parted(last: SpelledKind, wanted: Separator, next: SpelledKind) -> Separator
    ensures { IsParted (Some last) result next }
{
    match wanted {
        Separator::Line(level) => Separator::Line(level),
        Separator::EmptyLine(level) => Separator::EmptyLine(level),
        _ if last == SpelledKind::Comment => Separator::Line(0),
        Separator::Nothing if may_touch(last, next) => Separator::Nothing,
        _ => Separator::Blank,
    }
}

/// A separator that parts what stands last, if there is something, from what follows.
fn parting(last: Option<SpelledKind>, wanted: Separator, next: SpelledKind) -> Separator
    ensures { IsParted last result next }
{
    match last {
        None => Separator::Nothing,
        Some(last) => parted(last, wanted, next),
    }
}

/// The text of a layout, of its tokens and comments.
pub(crate) fn printed(alloc: Global, pieces: &[Spelled<'_>]) -> M<String>
    requires { EachSpelled (map spelled_of pieces.now) }
    ensures { IfOk result (λ text. AreSpelled (map spelled_of pieces.now) (string_bytes text)) }
{
    let mut out = String::new(alloc);
    let mut behind = Behind::new();
    let mut last = None;
    for index in 0..pieces.len() {
        let piece = &pieces[index];
        push_separator(&mut out, parting(last, behind.before(piece), piece.kind))?;
        out.push_str(piece.text)?;
        behind = behind.and(piece, &pieces[index + 1..]);
        last = Some(piece.kind);
    }
    Ok(out)
}
