//! Differences between two versions of a schema, as lines for people.

use crate::cause_text::push_cause;
use crate::json_lines::push_line;
use crate::sides::Sides;
use crate::text::Text;
use crate::witness::{push_subject, witness_text};
use cedar_ast::{EntityUID, Memory};
use cedar_compare::Difference;

/// How many requests of an action are shown where not all of them are asked for.
const SHOWN: usize = 20;

/// The requests of one action, as far as they were gone through.
#[derive(Drop)]
struct Run<'a> {
    /// How many of them are shown.
    shown: usize,
    /// The action, if what was gone through last is a request.
    action: Option<&'a EntityUID>,
    /// How many of them there were so far.
    count: usize,
}

/// Whether two actions are the same one, or both none.
fn is_same(one: Option<&EntityUID>, other: Option<&EntityUID>) -> bool {
    match (one, other) {
        (Some(one), Some(other)) => *one == *other,
        (None, None) => true,
        _ => false,
    }
}

/// The action of the request that a difference names, if it names one.
fn action_of(difference: &Difference) -> Option<&EntityUID> {
    match difference {
        Difference::Environment { witness, .. } => Some(&witness.action),
        _ => None,
    }
}

impl<'a> Run<'a> {
    /// Adds a line on those that aren't shown, if there are some.
    fn push_rest(&self, text: &mut Text) {
        let rest = self.count.saturating_sub(self.shown);
        if let Some(action) = self.action
            && rest > 0
        {
            let word = if rest == 1 { "request" } else { "requests" };
            text.write_escaped(format_args!("  .. and {rest} more {word} of {action}"));
            text.push('\n');
        }
    }

    /// Goes on by a difference.
    fn go_on(&mut self, text: &mut Text, difference: &'a Difference) {
        let action = action_of(difference);
        if !is_same(self.action, action) {
            self.push_rest(text);
            self.action = action;
            self.count = 0;
        }
        if action.is_some() {
            self.count = self.count.saturating_add(1);
        }
    }

    /// Whether the last one is shown.
    fn is_shown(&self) -> bool {
        self.count <= self.shown
    }
}

/// Adds the lines of a witness.
fn push_witness(text: &mut Text, witness: &str) {
    for line in witness.split('\n') {
        text.push_str("  ");
        push_line(text, line);
    }
}

/// Adds the lines of a difference: what it is of, why, and a witness.
fn push_difference(text: &mut Text, sides: &Sides<'_>, difference: &Difference) {
    let alloc = text.alloc();
    let mut subject = Text::new(alloc);
    push_subject(&mut subject, difference);
    let mut cause = Text::new(alloc);
    push_cause(&mut cause, sides, difference);
    write!(text, "{} ", sides.change);
    text.push_text(&subject);
    text.push_str("\n  ");
    text.push_text(&cause);
    text.push('\n');
    match witness_text(text.alloc(), difference) {
        Ok(Some(witness)) => push_witness(text, witness.as_str()),
        Ok(None) => text.push_str("  Cedar's JSON can't say a witness of it\n"),
        Err(Memory) => text.refuse(),
    }
}

/// Adds the lines of differences; of the requests of each action no more than some, unless all are
/// asked for.
pub(crate) fn push_lines(
    text: &mut Text,
    sides: &Sides<'_>,
    differences: &[Difference],
    is_all: bool,
) {
    let mut run = Run {
        shown: if is_all { usize::MAX } else { SHOWN },
        action: None,
        count: 0,
    };
    for difference in differences {
        run.go_on(text, difference);
        if run.is_shown() {
            push_difference(text, sides, difference);
        }
    }
    run.push_rest(text);
}
