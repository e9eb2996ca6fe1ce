//! Worked examples of what can be converted back, and what can't.

ghost use Rattle.std.specs.Prelude.{◌≡◌, [], ◌∷◌, None, Option, codes};
ghost use Rattle.declaration_examples.specs.Words.{IsConvertedBack, IsWritable, PlainName, Ty, action_attribute, action_entry, action_named, action_within, alias_name, any_entity, any_set, end, enumerated_kind, extension_of, group_of, never, one_type, record_of, sample_bag, sample_schema, schema_of_entries, set_of, standard_kind, truth, type_entry, type_written, union_of, with_attribute, within_sample};
ghost use Rattle.cedar_type_rules.specs.declared.bool_type.BoolType.TheVariants as truth_type;
ghost use Rattle.cedar_type_rules.specs.declared.open_tag.OpenTag.TheVariants as openness;

/// A schema and its bag, whole: parents and attributes are written in full, flags stay, and an
/// action says what it is for.
pub fn schemas_are_converted_back()
    ensures { IsConvertedBack sample_schema sample_bag }
{}

/// These types have no expression, in whatever namespace, and neither has a type of which one of
/// them is a part.
pub fn some_types_have_no_expression()
    ensures never { (namespace : Option PlainName) → type_written namespace never ≡ None }
    ensures one_truth { (namespace : Option PlainName)
        → type_written namespace (truth truth_type.True) ≡ None }
    ensures any_entity { (namespace : Option PlainName) → type_written namespace any_entity ≡ None }
    ensures two_types { (namespace : Option PlainName) (one other : PlainName)
        → type_written namespace (union_of (one ∷ other ∷ [])) ≡ None }
    ensures any_set { (namespace : Option PlainName) → type_written namespace any_set ≡ None }
    ensures set { (namespace : Option PlainName) → type_written namespace (set_of never) ≡ None }
    ensures open_record { (namespace : Option PlainName)
        → type_written namespace (record_of end openness.OpenAttributes) ≡ None }
    ensures extension { (namespace : Option PlainName)
        → type_written namespace (extension_of (within_sample (codes "ipaddr"))) ≡ None }
{}

/// A schema can't be converted back with an attribute whose type has no expression, or with an open
/// entity type.
pub fn unwritable_types()
    ensures attribute { (ty : Ty) → ((namespace : Option PlainName)
        → type_written namespace ty ≡ None)
        → ¬ IsWritable (one_type (with_attribute ty)) }
    ensures open_type { ¬ IsWritable (one_type (standard_kind end openness.OpenAttributes None)) }
{}

/// A schema can't be converted back where the name of an entity type would name another in its
/// namespace: in `N` the name `Action` is that of `N::Action` where an action of this type is
/// there. The same of the uid of a parent.
pub fn names_that_name_others()
    ensures type_name { ¬ IsWritable (action_attribute
        (action_entry (action_named (codes "b")) [] ∷ action_entry (action_within (codes "c")) []
        ∷ [])) }
    ensures uid { ¬ IsWritable (schema_of_entries []
        (action_entry (action_named (codes "b")) (action_within (codes "c") ∷ [])
        ∷ action_entry (action_within (codes "b")) [] ∷ action_entry (action_within (codes "c")) []
        ∷ [])) }
{}

/// A schema can't be converted back with an action whose uid is none of an action, with a
/// descendant that isn't there, or with one that is enumerated.
pub fn unwritable_hierarchies()
    ensures action_type { ¬ IsWritable (schema_of_entries []
        (action_entry (record { ty = alias_name (codes "User"); eid = codes "b" }) [] ∷ [])) }
    ensures missing { ¬ IsWritable (group_of []) }
    ensures enumerated { ¬ IsWritable (group_of
        (type_entry (alias_name (codes "U")) (enumerated_kind (codes "u" ∷ [])) [] ∷ [])) }
    ensures missing_action { ¬ IsWritable (schema_of_entries []
        (action_entry (action_named (codes "b")) (action_named (codes "c") ∷ []) ∷ [])) }
{}
