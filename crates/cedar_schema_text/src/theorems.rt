//! Laws of schema text.

ghost use Rattle.std.specs.Prelude.{◌≡◌, ℕ};
ghost use Rattle.cedar_ast.specs.Words.{Text};
ghost use Rattle.cedar_schema_text.specs.Placed.{FragmentAt};
ghost use Rattle.cedar_schema_text.specs.TextFormat.{StandsFor};

/// A text stands for one fragment at most.
pub fn one_meaning()
    ensures { (source : ℕ) (text : Text) (it other : FragmentAt) → StandsFor source text it
        → StandsFor source text other → it ≡ other }
{}
