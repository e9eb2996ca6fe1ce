//! The pieces of a text.

ghost use Rattle.std.specs.Prelude.{◌≡◌, ◌∷◌, [], suc, OnOk, IfOk};
ghost use Rattle.cedar_schema_text_writer.specs.Pieces.{Adds, line, quoted};

use cedar_ast::{M, Memory, Quoted};

/// Writes a quoted text.
pub(crate) fn put_quoted(out: &mut String, text: &str) -> M<()>
    ensures { OnOk result (Adds out.old out.new (quoted text.now ∷ [])) }
{
    out.write(Quoted(text))?;
    Ok(())
}

/// Writes a line end, and two blanks for each level behind it.
pub(crate) fn put_line(out: &mut String, level: usize) -> M<()>
    ensures { OnOk result (Adds out.old out.new (line level ∷ [])) }
{
    out.push_str("\n")?;
    for _done in 0..level {
        out.push_str("  ")?;
    }
    Ok(())
}

/// One level more. Types that stand in one another have fewer levels than there is room in memory.
pub(crate) fn deeper(level: usize) -> M<usize>
    ensures { IfOk result (λ more. more ≡ suc level) }
{
    level.checked_add(1).ok_or(Memory)
}
