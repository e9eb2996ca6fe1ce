//! Texts in quotes, as ids stand in printed uids.

ghost use Rattle.std.specs.Fmt.{WritesOnOk};
ghost use Rattle.cedar_ast.specs.UidText.{escaped_text};

use std::fmt;

/// A character of an id, printed as it stands between quotes.
#[derive(Clone, Copy)]
struct Escaped(char);

impl fmt::Display for Escaped {
    ghost use Rattle.std.specs.Prelude.{Some};
    ghost use Rattle.cedar_ast.specs.UidText.{escaped};

    ghost output = { λ it. Some (escaped it.0) };

    fn fmt<W: fmt::Write>(&self, f: &mut fmt::Formatter<W>) -> fmt::Result {
        match self.0 {
            '\0' => f.write_str("\\0"),
            '\t' => f.write_str("\\t"),
            '\n' => f.write_str("\\n"),
            '\r' => f.write_str("\\r"),
            '"' => f.write_str("\\\""),
            '\\' => f.write_str("\\\\"),
            c if c.is_control() => write!(f, "\\u{{{:x}}}", c as u32),
            c => f.write_char(c),
        }
    }
}

/// Writes an id as it stands between quotes.
fn write_escaped<W: fmt::Write>(eid: &str, f: &mut fmt::Formatter<W>) -> fmt::Result
    ensures { WritesOnOk W.write_str_gives f.old result (escaped_text eid.now) f.new }
{
    for c in eid.chars() {
        write!(f, "{}", Escaped(c))?;
    }
    Ok(())
}

/// The text of an id, to be printed in quotes.
///
/// In it `\`, `"`, line feed, carriage return, tab and U+0000 stand as `\\`, `\"`, `\n`, `\r`, `\t`
/// and `\0`, any other control character as `\u{7f}`, and all else as it is.
#[derive(Clone, Copy, Debug)]
pub struct Quoted<'a>(pub &'a str);

impl fmt::Display for Quoted<'_> {
    ghost use Rattle.std.specs.Prelude.{Some};
    ghost use Rattle.cedar_ast.specs.UidText.{quoted_text};

    ghost output = { λ id. Some (quoted_text id.0.now) };

    fn fmt<W: fmt::Write>(&self, f: &mut fmt::Formatter<W>) -> fmt::Result {
        f.write_str("\"")?;
        write_escaped(self.0, f)?;
        f.write_str("\"")
    }
}
