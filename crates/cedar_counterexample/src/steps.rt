//! Steps down a type: to an attribute, or to the elements of a set.

ghost use Rattle.std.specs.Prelude.{◌≡◌, ◌∷◌, IfOk};
ghost use Rattle.cedar_counterexample.specs.Steps.{noted_steps, step_of, steps_of};

use cedar_ast::M;

/// A step down a type.
#[derive(Debug, Drop, PartialEq, Eq)]
pub enum Step {
    /// To the type of the attribute of that name, in a record.
    Attribute(String),
    /// To the type of the elements, in a set.
    Element,
}

/// The steps that were noted on the way up, with one more that leads to them.
pub(crate) fn noted(steps: Vec<Step>, step: Step) -> M<Vec<Step>>
    ensures { IfOk result (λ all. noted_steps all ≡ step_of step ∷ noted_steps steps) }
{
    let mut all = steps;
    all.push(step)?;
    Ok(all)
}

/// The steps that were noted on the way up, in the order in which they lead down.
pub(crate) fn turned(steps: Vec<Step>) -> Vec<Step>
    ensures { steps_of result ≡ noted_steps steps }
{
    let mut turned = steps;
    turned.reverse();
    turned
}
