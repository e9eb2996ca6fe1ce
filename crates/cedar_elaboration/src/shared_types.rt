//! Types that many attributes have, shared by all of these.

ghost use Rattle.std.specs.Prelude.{◌≡◌, [], IfOk, IfSome, true};
ghost use Rattle.std.specs.Option.{option_copied};
ghost use Rattle.cedar_schema_ast.specs.Words.{Reference, variant_expr};
ghost use Rattle.cedar_schema_ast.specs.declared.json_schema.reference_type.ReferenceType.{ReferenceType};
ghost use Rattle.cedar_type_rules.specs.Fields.{field_names};
ghost use Rattle.cedar_types.specs.Meaning.{fields_of, ty_of};
ghost use Rattle.cedar_elaboration.specs.Primitive.{IsPrimitive, is_long_type, is_text_type, is_truth_type};

use cedar_ast::M;
use cedar_schema_ast::json_schema::TypeVariant;
use cedar_types::{Attributes, Type};
use std::alloc::Global;
use std::rc::Rc;

/// The primitive types, and the attributes of what has none: each is made once, and shared by
/// whatever has it.
#[derive(Drop)]
pub struct SharedTypes {
    of_strings: Rc<Type>,
    of_longs: Rc<Type>,
    of_booleans: Rc<Type>,
    no_attributes: Attributes,
    ghost are_strings: { is_text_type (ty_of of_strings.value) ≡ true },
    ghost are_longs: { is_long_type (ty_of of_longs.value) ≡ true },
    ghost are_booleans: { is_truth_type (ty_of of_booleans.value) ≡ true },
    ghost without_attributes: { field_names (fields_of no_attributes) ≡ [] },
}

impl SharedTypes {
    /// The types, made once. Out of memory is the only refusal.
    pub fn new(alloc: Global) -> M<Self> {
        Ok(SharedTypes {
            of_strings: Rc::new(alloc, Type::primitive_string())?,
            of_longs: Rc::new(alloc, Type::primitive_long())?,
            of_booleans: Rc::new(alloc, Type::primitive_boolean())?,
            no_attributes: Attributes::empty(alloc)?,
        })
    }

    /// The type that is written, where it is a primitive one.
    pub(crate) fn primitive<N>(&self, written: &TypeVariant<N>) -> Option<&Rc<Type>>
        ensures { (refer : ReferenceType → N → Reference)
            → IfSome (option_copied result) (λ shared.
            IsPrimitive (variant_expr N refer written.now) (ty_of shared.value)) }
    {
        match written {
            TypeVariant::String => Some(&self.of_strings),
            TypeVariant::Long => Some(&self.of_longs),
            TypeVariant::Boolean => Some(&self.of_booleans),
            _ => None,
        }
    }

    /// No attributes. Out of memory is the only refusal.
    pub fn no_attributes(&self) -> M<Attributes>
        ensures { IfOk result (λ none. field_names (fields_of none) ≡ []) }
    {
        self.no_attributes.clone()
    }
}
