//! Worked examples of the definitions: small bags of declarations, and what is right or wrong with
//! them.

ghost use Rattle.std.specs.Prelude.{◌≡◌, ℤ, List, [], ◌∷◌, None, true, false, codes};
ghost use Rattle.declaration_examples.specs.Words.{Admits, ElaboratesTo, EntitySays, EntityTypeKind, Extensions, HasToResolve, IsDescendant, IsFault, RawName, Reference, ResolvesTo, SameBag, action_word, actions_bag, alias_bag, alias_name, apart_bag, both_bag, built_in_name, common_type_cycle, cycle_bag, defined_names, definitions, duplicate_entity_type, entity_here, entry, enumerated_below, external, external_bag, external_below_enumerated, kind_body, known_tint_bag, linked_bag, long, map_value, named, nested_bag, no_entry, no_member, number_value, open_bag, open_record, optional_record, painted_bag, principal_bag, raw_reference, record_expr, refer_here, refer_within, reference_to, ring_bag, shadow_bag, standard, text, tint_bag, together_bag, type_shadowing, undeclared_entity_types, union_of, within_sample};
ghost use Rattle.cedar_schema_ast.specs.declared.json_schema.reference_type.ReferenceType.TheVariants as to;

/// Two common types that refer to each other are a cycle, and each is named; a built-in type that
/// one of them refers to is not, nor is its alias.
pub fn cycles_name_their_members()
    ensures first { (extensions : Extensions)
        → IsFault cycle_bag extensions (common_type_cycle (alias_name (codes "A"))) }
    ensures second { (extensions : Extensions)
        → IsFault cycle_bag extensions (common_type_cycle (alias_name (codes "B"))) }
    ensures built_in { (extensions : Extensions)
        → ¬ IsFault cycle_bag extensions (common_type_cycle (built_in_name (codes "Long"))) }
    ensures alias { (extensions : Extensions)
        → ¬ IsFault cycle_bag extensions (common_type_cycle (alias_name (codes "Long"))) }
{}

/// A name that is common and entity is the common type where either may stand, and the entity type
/// where an entity type has to.
pub fn common_types_are_preferred()
    ensures either { (extensions : Extensions) → ElaboratesTo (definitions both_bag extensions)
        (named (refer_within to.CommonOrEntity (codes "T"))) long }
    ensures entity { (extensions : Extensions) → ElaboratesTo (definitions both_bag extensions)
        (named (refer_within to.Entity (codes "T"))) (union_of (within_sample (codes "T") ∷ [])) }
{}

/// An entity type takes the alias of its name away; the built-in type keeps its full name.
pub fn entity_types_take_aliases_away()
    ensures entity { (extensions : Extensions) → ElaboratesTo (definitions alias_bag extensions)
        (named (refer_here to.CommonOrEntity (codes "String")))
        (union_of (alias_name (codes "String") ∷ [])) }
    ensures built_in { (extensions : Extensions) → ElaboratesTo (definitions alias_bag extensions)
        (named (reference_to None to.CommonOrEntity (built_in_name (codes "String")))) text }
    ensures alias { (extensions : Extensions) → ElaboratesTo (definitions alias_bag extensions)
        (named (refer_here to.CommonOrEntity (codes "Long"))) long }
{}

/// Of an external declaration the parents alone count, so nothing in its attributes or tags has to
/// resolve.
pub fn external_attributes_do_not_count()
    ensures body { (kind : EntityTypeKind RawName)
        → (parents : List Reference) × (kind_body RawName (raw_reference None) kind true
        ≡ external parents) }
    ensures nothing { (reference : Reference) → ¬ HasToResolve external_bag reference }
{}

/// A declared name without a path is shadowed by one of the same base name with a path; the types
/// of actions, which nothing declares, shadow nothing.
pub fn declared_names_shadow()
    ensures types { (extensions : Extensions) → IsFault shadow_bag extensions
        (type_shadowing (alias_name (codes "User")) (within_sample (codes "User"))) }
    ensures actions { (extensions : Extensions) → ¬ IsFault actions_bag extensions
        (type_shadowing (alias_name action_word) (within_sample action_word)) }
{}

/// A name that is declared twice is found at any two places of a bag.
pub fn duplicates_are_found()
    ensures together { (extensions : Extensions) → IsFault
        (entity_here (codes "T") [] no_member ∷ entity_here (codes "T") [] no_member ∷ [])
        extensions (duplicate_entity_type (alias_name (codes "T"))) }
    ensures apart { (extensions : Extensions) → IsFault
        (entity_here (codes "T") [] no_member ∷ entity_here (codes "U") [] no_member
        ∷ entity_here (codes "T") [] no_member ∷ [])
        extensions (duplicate_entity_type (alias_name (codes "T"))) }
    ensures once { (extensions : Extensions) → ¬ IsFault
        (entity_here (codes "T") [] no_member ∷ entity_here (codes "U") [] no_member ∷ [])
        extensions (duplicate_entity_type (alias_name (codes "T"))) }
{}

/// An external entity type that is below an enumerated one in two steps is at fault; where it has a
/// definition besides it is not.
pub fn external_types_below_enumerated_ones()
    ensures two_steps { (extensions : Extensions) → IsFault tint_bag extensions
        (external_below_enumerated (alias_name (codes "Tint")) (alias_name (codes "Color"))) }
    ensures defined { (extensions : Extensions) → ¬ IsFault known_tint_bag extensions
        (external_below_enumerated (alias_name (codes "Tint")) (alias_name (codes "Color"))) }
{}

/// An enumerated entity type to which an external declaration gives a parent is at fault.
pub fn enumerated_types_have_no_parents()
    ensures { (extensions : Extensions) → IsFault painted_bag extensions
        (enumerated_below (alias_name (codes "Color")) (alias_name (codes "Paint"))) }
{}

/// Two external declarations of an entity type with a parent each say what one with both parents
/// says.
pub fn parents_may_be_said_apart_or_together()
    ensures { SameBag apart_bag together_bag }
{}

/// An entity type with an external declaration and a definition is what its definition says, is
/// declared once, and has the parents of both.
pub fn definitions_fulfil_external_declarations()
    ensures says { EntitySays linked_bag (alias_name (codes "User"))
        (standard (refer_here to.Entity (codes "Team") ∷ []) (record_expr no_member false) None) }
    ensures once { (extensions : Extensions) → ¬ IsFault linked_bag extensions
        (duplicate_entity_type (alias_name (codes "User"))) }
    ensures external { (extensions : Extensions)
        → IsDescendant linked_bag extensions (alias_name (codes "User"))
        (alias_name (codes "Group")) }
    ensures own { (extensions : Extensions)
        → IsDescendant linked_bag extensions (alias_name (codes "User"))
        (alias_name (codes "Team")) }
{}

/// Where two entity types are each below the other, each is its own descendant.
pub fn rings_are_their_own_descendants()
    ensures first { (extensions : Extensions)
        → IsDescendant ring_bag extensions (alias_name (codes "A")) (alias_name (codes "A")) }
    ensures second { (extensions : Extensions)
        → IsDescendant ring_bag extensions (alias_name (codes "B")) (alias_name (codes "B")) }
{}

/// A principal may not be of an action's type.
pub fn principals_are_no_actions()
    ensures { (extensions : Extensions) → IsFault principal_bag extensions
        (undeclared_entity_types (alias_name action_word ∷ [])) }
{}

/// A name without a path is looked for in its namespace first, and then without one.
pub fn names_resolve_in_their_namespace_first()
    ensures within { (extensions : Extensions) → ResolvesTo (defined_names nested_bag extensions)
        (refer_within to.Entity (codes "T")) (within_sample (codes "T")) }
    ensures without { (extensions : Extensions) → ResolvesTo (defined_names tint_bag extensions)
        (refer_within to.Entity (codes "Shade")) (alias_name (codes "Shade")) }
    ensures elsewhere { (extensions : Extensions)
        → ¬ ResolvesTo (defined_names nested_bag extensions)
        (refer_within to.Entity (codes "T")) (alias_name (codes "T")) }
{}

/// The definition of a common type counts, though nothing refers to it.
pub fn unused_common_types_count()
    ensures { (extensions : Extensions) → IsFault open_bag extensions open_record }
{}

/// A record admits values without an attribute that isn't required, and none with a further one.
pub fn optional_attributes_may_be_missing()
    ensures missing { (extensions : Extensions) → Admits (definitions [] extensions) extensions
        (map_value no_entry) optional_record }
    ensures there { (extensions : Extensions) (number : ℤ)
        → Admits (definitions [] extensions) extensions
        (map_value (entry (codes "a") (number_value number) no_entry)) optional_record }
    ensures further { (extensions : Extensions) (number : ℤ)
        → ¬ Admits (definitions [] extensions) extensions
        (map_value (entry (codes "b") (number_value number) no_entry)) optional_record }
{}
