//! Laws of validation.

ghost use Rattle.cedar_validation.specs.Words.{ClosesSchema, Extensions, IsValidSchema, PlainSchema};

/// A valid schema is valid still once it is closed, and closing it again is closing it once.
pub fn closing_again_is_closing_once()
    ensures valid { (extensions : Extensions) (schema closed : PlainSchema)
        → ClosesSchema schema closed
        → IsValidSchema extensions schema → IsValidSchema extensions closed }
    ensures closed { (schema closed again : PlainSchema) → ClosesSchema schema closed
        → ClosesSchema closed again
        → ClosesSchema schema again }
{}
