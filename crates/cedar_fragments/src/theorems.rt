//! Laws of fragments.

ghost use Rattle.std.specs.Prelude.{◌≡◌, List};
ghost use Rattle.std.specs.List.{flat_map};
ghost use Rattle.cedar_fragments.specs.Words.{AreTheDeclaredNames, Extensions, HasNoDefinitionFault, IsFault, PlainName, PositionsFit, Reference, ReferenceType, RefersAlike, SameDeclarations, Text, ValidatorSchemaFragment, action_attributes, action_entity_type, conditional_bag, conditional_fragment, declared_names, fragment_declarations, own_reference, positional_reference, reserved_name, resolved_action_type, resolved_bag, resolved_fragment, resolved_reference};
ghost use Rattle.cedar_ast.specs.declared.entity_type.EntityType.{EntityType as ActionEntityType};
ghost use Rattle.cedar_ast.specs.declared.internal_name.InternalName.{InternalName as Full};
ghost use Rattle.cedar_schema_ast.specs.declared.json_schema.conditional_name.ConditionalName.{ConditionalName as Conditional};

use cedar_ast::{EntityType, InternalName};
use cedar_schema_ast::json_schema::{ConditionalName, FragmentName};

/// The names that fragments declare are those of their bag, whatever their references are to.
pub fn names_are_those_of_the_bag<N, A>()
    ensures { (refer : ReferenceType → N → Reference) (refer_action : ReferenceType → A → Reference)
        (fragments : List (ValidatorSchemaFragment N A))
        → AreTheDeclaredNames (declared_names N A fragments)
        (flat_map (fragment_declarations N refer A refer_action) fragments) }
{}

/// No fault of what fragments declare is one that a definition gives cause for by itself, whatever
/// their references are to: their actions have no attributes, no entity type of theirs is a type of
/// actions, and neither stands in a reserved namespace.
pub fn fragments_have_no_definition_fault<N, A>()
    ensures { (refer : ReferenceType → N → Reference) (refer_action : ReferenceType → A → Reference)
        (fragments : List (ValidatorSchemaFragment N A))
        → HasNoDefinitionFault (flat_map (fragment_declarations N refer A refer_action) fragments) }
{}

/// The references of fragments over conditional names fit their positions: each at the place of an
/// entity type refers to one.
pub fn references_fit_their_positions()
    ensures { (fragments : List (ValidatorSchemaFragment Conditional Conditional))
        → PositionsFit (conditional_bag fragments) }
{}

/// Alike names refer to the same, as bags and types read them: conditional names, of the kinds that
/// they say themselves or that their places permit, full names, and the types of actions.
pub fn alike_names_refer_to_the_same()
    ensures own { RefersAlike Conditional ⟦<ConditionalName as FragmentName>⟧.is_alike
        own_reference }
    ensures placed { RefersAlike Conditional ⟦<ConditionalName as FragmentName>⟧.is_alike
        positional_reference }
    ensures resolved { RefersAlike Full ⟦<InternalName as FragmentName>⟧.is_alike
        resolved_reference }
    ensures action_types { RefersAlike ActionEntityType ⟦<EntityType as FragmentName>⟧.is_alike
        resolved_action_type }
{}

/// A fragment that declares the same as another whatever alike names refer to, as a copy does, has
/// the same bag, before names are resolved and after.
pub fn copies_have_the_same_bag()
    ensures conditional { (fragment copy : ValidatorSchemaFragment Conditional Conditional)
        → SameDeclarations ⟦<ConditionalName as FragmentName>⟧.is_alike
        ⟦<ConditionalName as FragmentName>⟧.is_alike fragment copy
        → conditional_fragment copy ≡ conditional_fragment fragment }
    ensures resolved { (fragment copy : ValidatorSchemaFragment Full ActionEntityType)
        → SameDeclarations ⟦<InternalName as FragmentName>⟧.is_alike
        ⟦<EntityType as FragmentName>⟧.is_alike fragment copy
        → resolved_fragment copy ≡ resolved_fragment fragment }
{}

/// Fragments over full names declare no action with attributes, no entity type with the base name
/// of actions' types, and no entity type or action in a reserved namespace.
pub fn resolved_definitions_have_no_fault()
    ensures attributes { (fragments : List (ValidatorSchemaFragment Full ActionEntityType))
        (extensions : Extensions) (ids : List Text)
        → ¬ IsFault (resolved_bag fragments) extensions (action_attributes ids) }
    ensures action_types { (fragments : List (ValidatorSchemaFragment Full ActionEntityType))
        (extensions : Extensions) (name : PlainName)
        → ¬ IsFault (resolved_bag fragments) extensions (action_entity_type name) }
    ensures reserved { (fragments : List (ValidatorSchemaFragment Full ActionEntityType))
        (extensions : Extensions) (name : PlainName)
        → ¬ IsFault (resolved_bag fragments) extensions (reserved_name name) }
{}

/// A definition over conditional names is refused for no fault of a bag.
pub fn conditional_definitions_have_no_fault()
    ensures attributes { (fragments : List
        (ValidatorSchemaFragment Conditional Conditional)) (extensions : Extensions)
        (ids : List Text)
        → ¬ IsFault (conditional_bag fragments) extensions (action_attributes ids) }
    ensures action_types { (fragments : List
        (ValidatorSchemaFragment Conditional Conditional)) (extensions : Extensions)
        (name : PlainName)
        → ¬ IsFault (conditional_bag fragments) extensions (action_entity_type name) }
    ensures reserved { (fragments : List (ValidatorSchemaFragment Conditional Conditional))
        (extensions : Extensions) (name : PlainName)
        → ¬ IsFault (conditional_bag fragments) extensions (reserved_name name) }
{}
