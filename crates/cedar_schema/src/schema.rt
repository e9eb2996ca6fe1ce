//! Schemas, and how one is built from fragments.

ghost use Rattle.std.specs.Prelude.{◌≡◌, ◌⊎◌, IfErr, IfOk, List, OnOk, map};
ghost use Rattle.cedar_schema_elements.specs.ValidatorActionId as action;
ghost use Rattle.cedar_schema_semantics.specs.Words.{ActionEntity, AreEnvironmentsOf, ClosesSchema, IsSchemaFault, IsValidSchema, fault_of, out_of_memory};
ghost use Rattle.cedar_validation.specs.Words.{plain_schema, whole_schema};
ghost use Rattle.cedar_schema_elements.specs.Words.{owned_environment, plain_entry, schema_listing};
ghost use Rattle.cedar_schema_elements.specs.ValidatorEntityType as types;
ghost use Rattle.cedar_schema_laws.specs.EndToEnd.{IsInOrder, StandsUnderItsNames};

use crate::building::{SchemaParts, build};
use crate::collecting::Located;
pub use crate::located_common_type::LocatedCommonType;
pub use crate::located_namespace::LocatedNamespace;
pub use crate::located_type::LocatedType;
use crate::raw::build_raw;
use crate::shared::Shared;
use cedar_ast::{EntityType, EntityUID, Extensions, M};
use cedar_fragments::namespace::ValidatorSchemaFragment;
pub use cedar_queries::{
    CompleteError, IncompleteSchemaError, TypeIterator, UnresolvedDeclaration,
};
use cedar_schema_ast::json_schema::{ConditionalName, Fragment, NamespaceDefinition, RawName};
use cedar_schema_elements::{
    UnlinkedRequestEnv, ValidatorActionId, ValidatorEntityType, environments,
};
pub use cedar_schema_semantics::{ContextOrShape, SchemaError, UnsupportedFeature};
pub use cedar_schema_writer::WriteBackFault;
use cedar_table::Table;
use cedar_validation::{
    Parts, actions_by_uid, copied_actions, copied_types, types_by_name, validate, validate_copies,
};
use std::alloc::Global;
use std::collections::BTreeMap;

/// A schema: its entity types and its actions.
///
/// It holds beside them the environments of requests, which follow of the actions, and answers
/// these without looking further. A schema that was built from fragments also shows their common
/// types and namespaces, with where these were written.
///
/// An entity type or an action is located where it is defined, or else where an external
/// declaration of it stands, and so is whatever lends its name. Equality ignores locations, and
/// what is shown of fragments.
#[derive_where(Debug, PartialEq, Eq)]
pub struct ValidatorSchema {
    pub(crate) content: Shared<Content>,
    #[derive_where(skip(EqHashOrd))]
    pub(crate) located: Shared<Located>,
}

/// What a schema holds but for what it shows of its fragments: its copies share it.
#[derive_where(Debug, PartialEq, Eq)]
pub(crate) struct Content {
    pub(crate) tables: Parts,
    #[derive_where(skip(EqHashOrd))]
    pub(crate) environments: Vec<UnlinkedRequestEnv>,
    ghost environments_of_actions: { ∥ AreEnvironmentsOf
        (schema_listing (map plain_entry tables.entity_types.entries) tables.actions.entries)
        (map owned_environment environments.items) ∥₁ },
    ghost in_order: { ∥ IsInOrder
        (schema_listing (map plain_entry tables.entity_types.entries) tables.actions.entries) ∥₁ },
    ghost under_names: { ∥ StandsUnderItsNames
        (schema_listing (map plain_entry tables.entity_types.entries) tables.actions.entries) ∥₁ },
    ghost types_located: { types.AreLocatedAsKeys tables.entity_types.entries },
    ghost actions_located: { action.AreLocatedAsKeys tables.actions.entries },
}

// Written out: proofs of what holds a schema then see one call, and nothing of their parts.
impl Drop for ValidatorSchema {
    fn drop(self) {
        let ValidatorSchema {
            content: _content,
            located: _located,
        } = self;
    }
}

// Written out for the same reason.
impl Drop for Content {
    fn drop(self) {
        let Content {
            tables: _tables,
            environments: _environments,
        } = self;
    }
}

impl Content {
    /// The entity types and the actions.
    fn into_tables(self) -> Parts
        ensures { result ≡ self.tables }
    {
        let Content {
            tables,
            environments: _environments,
        } = self;
        tables
    }
}

impl ValidatorSchema {
    ghost use Rattle.std.specs.Prelude.{◌≡◌, ◌⊎◌, List, [], ◌∷◌, IfErr, IfOk, OnOk, None};
    ghost use Rattle.std.specs.Iterator.{IsFiniteIterable};
    ghost use Rattle.std.specs.Result.{result_map_both};
    ghost use Rattle.cedar_schema.specs.Words.{AreKeysLocated, ClosesSchema, HoldsOfAll, HoldsPairwise, IsActionCopied, IsBuiltFrom, IsSchemaFault, IsTypeCopied, IsValidSchema, NamesAllOfADefinition, NamesAllWithAttributes, SameSchema, Shows, ShowsFragments, ShowsWritten, TypeNamesFit, action_entries, action_of_uid, common_entries, conditional_bag, entity_type_named, extension_types, fault_of, last_named, last_of_uid, located_of, namespace_entries, out_of_memory, parts_schema, raw_bag, raw_declarations, raw_fragment, schema_entries, schema_of, shown_common_type, shown_entry, type_name, uid_of, written_common_names};
    ghost use Rattle.cedar_ast.specs.declared.entity_type.EntityType.{EntityType as Name};
    ghost use Rattle.cedar_ast.specs.declared.entity_uid.EntityUID.{EntityUID as Uid};

    /// The schema that declares nothing.
    pub fn empty(alloc: Global) -> Self
        ensures entity_types { schema_entries result ≡ [] }
        ensures actions { action_entries result ≡ [] }
        ensures common_types { common_entries (located_of result) ≡ [] }
        ensures namespaces { namespace_entries (located_of result) ≡ [] }
    {
        let content = Content {
            tables: Parts {
                entity_types: Table::new(alloc),
                actions: Table::new(alloc),
            },
            environments: Vec::new(alloc),
        };
        ValidatorSchema {
            content: Shared::owned(content),
            located: Shared::owned(Located::nothing(alloc)),
        }
    }

    /// What the schema holds.
    pub(crate) fn content(&self) -> &Content
        ensures { result.now ≡ self.now.content }
    {
        self.content.value()
    }

    /// The schema of what was built, with its environments.
    fn from_parts(alloc: Global, parts: SchemaParts) -> M<Self>
        requires under_names { StandsUnderItsNames (parts_schema parts) }
        requires keys { AreKeysLocated parts.tables.entity_types.entries
            parts.tables.actions.entries }
        ensures schema { IfOk result (λ schema. schema_of schema ≡ parts_schema parts) }
        ensures entity_types { IfOk result (λ schema.
            schema_entries schema ≡ parts.tables.entity_types.entries) }
        ensures actions { IfOk result (λ schema.
            action_entries schema ≡ parts.tables.actions.entries) }
        ensures located { IfOk result (λ schema. located_of schema ≡ parts.located) }
    {
        let SchemaParts { tables, located } = parts;
        let environments = environments(alloc, &tables.actions)?;
        tables.entity_types.keys_ascend();
        tables.actions.keys_ascend();
        let content = Content {
            tables,
            environments,
        };
        Ok(ValidatorSchema {
            content: Shared::new(alloc, content)?,
            located,
        })
    }

    /// The schema that fragments declare over the given extensions, where the names in the
    /// fragments say what they may stand for.
    ///
    /// The names of the extension types have to fit, which [`Extensions::type_names_fit`] tests.
    /// An error other than out of memory names a fault of the declarations of all fragments
    /// together (Cedar's rules of schemas, with RFC 24 for resolution, RFC 70 for shadowing and
    /// RFC 82 for tags); where there is none, the schema is the one that is declared, and the
    /// only one. How the declarations are split into fragments, and their order, makes no
    /// difference.
    ///
    /// The kinds of errors are:
    ///
    /// - `TypeShadowing`, `ActionShadowing`: one declared name would shadow another (RFC 70)
    /// - `TypeNotDefined`, `ActionNotDefined`: a reference or a parent of an action names nothing
    /// - `UndeclaredEntityTypes`: a type of actions stands where an entity type has to
    /// - `DuplicateCommonType`: a common type has two definitions, or is built in
    /// - `DuplicateEntityType`, `DuplicateAction`: an entity type or an action has two
    ///   definitions
    /// - `CycleInCommonTypeReferences`: the definition of a common type leads back to it
    /// - `CycleInActionHierarchy`: an action is its own descendant
    /// - `ContextOrShapeNotRecord`: a context or a shape is no record type
    /// - `UnknownExtensionType`: an extension type wasn't handed in
    /// - `ExternalWithEnumAncestor`: an external entity type is a descendant of an enumerated one
    /// - `EnumEntityInHierarchy`: an enumerated entity type has a parent, by an external
    ///   declaration
    /// - `UnsupportedFeature`: a record type admits attributes that it doesn't list
    /// - `Memory`: memory ran out
    pub fn from_schema_fragments(
        alloc: Global,
        fragments: Vec<ValidatorSchemaFragment<ConditionalName, ConditionalName>>,
        extensions: &Extensions,
    ) -> Result<Self, SchemaError>
        requires { TypeNamesFit (extension_types extensions.now) }
        ensures built { IsBuiltFrom (conditional_bag fragments.items) extensions.now
            (result_map_both schema_of fault_of result) }
        ensures located { IfOk result (λ schema.
            ShowsFragments fragments.items (located_of schema)) }
        ensures keys { IfOk result (λ schema.
            AreKeysLocated (schema_entries schema) (action_entries schema)) }
    {
        let parts = build(alloc, fragments, extensions)?;
        Ok(ValidatorSchema::from_parts(alloc, parts)?)
    }

    /// The schema that fragments declare over the given extensions, as they are written.
    ///
    /// The names of the extension types have to fit, which [`Extensions::type_names_fit`] tests.
    /// An error other than out of memory names a fault of the declarations of all fragments
    /// together; where there is none, the schema is the one that is declared, and the only one. A
    /// definition is refused by itself, whatever else is declared, for actions with attributes
    /// and for an entity type with the id `Action`, external ones too.
    ///
    /// The kinds of errors are:
    ///
    /// - `TypeShadowing`, `ActionShadowing`: one declared name would shadow another (RFC 70)
    /// - `TypeNotDefined`, `ActionNotDefined`: a reference or a parent of an action names nothing
    /// - `UndeclaredEntityTypes`: a type of actions stands where an entity type has to
    /// - `DuplicateCommonType`: a common type has two definitions, or is built in
    /// - `DuplicateEntityType`, `DuplicateAction`: an entity type or an action has two
    ///   definitions
    /// - `CycleInCommonTypeReferences`: the definition of a common type leads back to it
    /// - `CycleInActionHierarchy`: an action is its own descendant
    /// - `ContextOrShapeNotRecord`: a context or a shape is no record type
    /// - `UnknownExtensionType`: an extension type wasn't handed in
    /// - `ExternalWithEnumAncestor`: an external entity type is a descendant of an enumerated one
    /// - `EnumEntityInHierarchy`: an enumerated entity type has a parent, by an external
    ///   declaration
    /// - `UnsupportedFeature`: an action is written with attributes, where it names all such
    ///   actions of one definition; or a record type admits attributes that it doesn't list
    /// - `ActionEntityTypeDeclared`: an entity type has the id `Action`
    /// - `Memory`: memory ran out
    pub fn from_raw_fragments(
        alloc: Global,
        fragments: Vec<Fragment<RawName>>,
        extensions: &Extensions,
    ) -> Result<Self, SchemaError>
        requires { TypeNamesFit (extension_types extensions.now) }
        ensures built { IsBuiltFrom (raw_bag fragments.items) extensions.now
            (result_map_both schema_of fault_of result) }
        ensures all_named { IfErr result (λ error.
            NamesAllOfADefinition fragments.items (fault_of error)) }
        ensures located { IfOk result (λ schema. ShowsWritten fragments.items (located_of schema)) }
        ensures keys { IfOk result (λ schema.
            AreKeysLocated (schema_entries schema) (action_entries schema)) }
    {
        let parts = build_raw(alloc, fragments, extensions)?;
        Ok(ValidatorSchema::from_parts(alloc, parts)?)
    }

    /// The schema that one fragment declares over the given extensions, as it is written.
    ///
    /// The names of the extension types have to fit, which [`Extensions::type_names_fit`] tests.
    /// An error other than out of memory names a fault of the declarations; where there is none,
    /// the schema is the one that is declared, and the only one.
    ///
    /// The kinds of errors are:
    ///
    /// - `TypeShadowing`, `ActionShadowing`: one declared name would shadow another (RFC 70)
    /// - `TypeNotDefined`, `ActionNotDefined`: a reference or a parent of an action names nothing
    /// - `UndeclaredEntityTypes`: a type of actions stands where an entity type has to
    /// - `DuplicateCommonType`: a common type has two definitions, or is built in
    /// - `DuplicateEntityType`, `DuplicateAction`: an entity type or an action has two
    ///   definitions
    /// - `CycleInCommonTypeReferences`: the definition of a common type leads back to it
    /// - `CycleInActionHierarchy`: an action is its own descendant
    /// - `ContextOrShapeNotRecord`: a context or a shape is no record type
    /// - `UnknownExtensionType`: an extension type wasn't handed in
    /// - `ExternalWithEnumAncestor`: an external entity type is a descendant of an enumerated one
    /// - `EnumEntityInHierarchy`: an enumerated entity type has a parent, by an external
    ///   declaration
    /// - `UnsupportedFeature`: an action is written with attributes, where it names all such
    ///   actions of one definition; or a record type admits attributes that it doesn't list
    /// - `ActionEntityTypeDeclared`: an entity type has the id `Action`
    /// - `Memory`: memory ran out
    pub fn from_schema_frag(
        alloc: Global,
        fragment: Fragment<RawName>,
        extensions: &Extensions,
    ) -> Result<Self, SchemaError>
        requires { TypeNamesFit (extension_types extensions.now) }
        ensures built { IsBuiltFrom (raw_fragment fragment) extensions.now
            (result_map_both schema_of fault_of result) }
        ensures all_named { IfErr result (λ error.
            NamesAllOfADefinition (fragment ∷ []) (fault_of error)) }
        ensures located { IfOk result (λ schema. ShowsWritten (fragment ∷ []) (located_of schema)) }
        ensures keys { IfOk result (λ schema.
            AreKeysLocated (schema_entries schema) (action_entries schema)) }
    {
        let mut fragments = Vec::new(alloc);
        fragments.push(fragment)?;
        ValidatorSchema::from_raw_fragments(alloc, fragments, extensions)
    }

    /// The schema that a definition in the empty namespace declares over the given extensions, as
    /// it is written.
    ///
    /// The names of the extension types have to fit, which [`Extensions::type_names_fit`] tests.
    /// An error other than out of memory names a fault of the declarations; where there is none,
    /// the schema is the one that is declared, and the only one.
    ///
    /// The kinds of errors are these, since one definition in the empty namespace declares each
    /// name once and has no qualified ones:
    ///
    /// - `TypeNotDefined`, `ActionNotDefined`: a reference or a parent of an action names nothing
    /// - `UndeclaredEntityTypes`: a type of actions stands where an entity type has to
    /// - `CycleInCommonTypeReferences`: the definition of a common type leads back to it
    /// - `CycleInActionHierarchy`: an action is its own descendant
    /// - `ContextOrShapeNotRecord`: a context or a shape is no record type
    /// - `UnknownExtensionType`: an extension type wasn't handed in
    /// - `ExternalWithEnumAncestor`: an external entity type is a descendant of an enumerated one
    /// - `UnsupportedFeature`: an action is written with attributes, where it names all such
    ///   actions of one definition; or a record type admits attributes that it doesn't list
    /// - `ActionEntityTypeDeclared`: an entity type has the id `Action`
    /// - `Memory`: memory ran out
    pub fn from_namespace_def(
        alloc: Global,
        definition: NamespaceDefinition<RawName>,
        extensions: &Extensions,
    ) -> Result<Self, SchemaError>
        requires { TypeNamesFit (extension_types extensions.now) }
        ensures built { IsBuiltFrom (raw_declarations None definition) extensions.now
            (result_map_both schema_of fault_of result) }
        ensures all_named { IfErr result (λ error.
            NamesAllWithAttributes (raw_declarations None definition) None (fault_of error)) }
        ensures located { IfOk result (λ schema.
            Shows (written_common_names None definition.common_types.entries) []
            (located_of schema)) }
        ensures keys { IfOk result (λ schema.
            AreKeysLocated (schema_entries schema) (action_entries schema)) }
    {
        let mut definitions = BTreeMap::new(alloc);
        definitions.insert(None, definition)?;
        ValidatorSchema::from_schema_frag(alloc, Fragment(definitions), extensions)
    }

    /// The schema of given entity types and actions, each under its own name; of those of one name
    /// the last counts. The entities of the actions and the environments are made of them. Both
    /// have to come to an end.
    ///
    /// Nothing is checked, and descendants stay as they are given:
    /// [`ValidatorSchema::try_validate`] closes and checks. Out of memory is the only refusal.
    pub fn new<
        T: IntoIterator<Item = ValidatorEntityType>,
        A: IntoIterator<Item = ValidatorActionId> + Drop,
    >(alloc: Global, entity_types: T, actions: A) -> M<Self>
        requires entity_types { IsFiniteIterable T.into_iter_gives T.IntoIter.can_next
            T.IntoIter.remaining entity_types }
        requires actions { IsFiniteIterable A.into_iter_gives A.IntoIter.can_next
            A.IntoIter.remaining actions }
        ensures entity_types { IfOk result (λ schema.
            HoldsOfAll T.into_iter_gives T.IntoIter.next_gives entity_types
            (λ xs. (name : Name) → entity_type_named schema (type_name name)
            ≡ last_named (type_name name) xs)) }
        ensures actions { IfOk result (λ schema.
            HoldsOfAll A.into_iter_gives A.IntoIter.next_gives actions
            (λ xs. (uid : Uid) → action_of_uid schema (uid_of uid)
            ≡ last_of_uid (uid_of uid) xs)) }
        ensures common_types { IfOk result (λ schema. common_entries (located_of schema) ≡ []) }
        ensures namespaces { IfOk result (λ schema. namespace_entries (located_of schema) ≡ []) }
        ensures keys { IfOk result (λ schema.
            AreKeysLocated (schema_entries schema) (action_entries schema)) }
    {
        let entity_types = types_by_name(alloc, Vec::from_iter(alloc, entity_types)?)?;
        let actions = actions_by_uid(alloc, Vec::from_iter(alloc, actions)?)?;
        let parts = SchemaParts {
            tables: Parts {
                entity_types,
                actions,
            },
            located: Shared::new(alloc, Located::nothing(alloc))?,
        };
        ValidatorSchema::from_parts(alloc, parts)
    }

    /// The schema, checked, with all its descendants closed.
    ///
    /// Unless memory runs out, it is refused exactly where it isn't valid, and with a fault of it.
    /// Descendants count in any number of steps. The kinds of errors are:
    ///
    /// - `UndeclaredEntityTypes`: an entity type that is named in attributes, tags or a context
    ///   is neither declared nor the type of an action; or a descendant, a principal or a resource
    ///   isn't declared
    /// - `UnknownExtensionType`: an extension type wasn't handed in
    /// - `ActionEntityTypeDeclared`: an entity type has the base name `Action`
    /// - `InvalidActionType`: the type of an action has another base name
    /// - `CycleInActionHierarchy`: an action is its own descendant
    /// - `ExternalWithEnumAncestor`: an external entity type is a descendant of an enumerated one
    /// - `EnumEntityInHierarchy`: an enumerated entity type is a descendant of any
    /// - `UndeclaredActionsDescendant`: a descendant of an action is no action of the schema
    /// - `TypeShadowing`, `ActionShadowing`: an entity type or an action would shadow another
    ///   (RFC 70)
    /// - `Memory`: memory ran out
    pub fn try_validate(self, alloc: Global, extensions: &Extensions) -> Result<Self, SchemaError>
        ensures fault { IfErr result (λ error. (fault_of error ≡ out_of_memory)
            ⊎ IsSchemaFault extensions.now (schema_of self) (fault_of error)) }
        ensures valid { OnOk result (IsValidSchema extensions.now (schema_of self)) }
        ensures closed { IfOk result (λ schema. ClosesSchema (schema_of self) (schema_of schema)) }
        ensures located { IfOk result (λ schema. located_of schema ≡ located_of self) }
        ensures keys { IfOk result (λ schema.
            AreKeysLocated (schema_entries schema) (action_entries schema)) }
    {
        let ValidatorSchema { content, located } = self;
        let tables = validated(alloc, content, extensions)?;
        let parts = SchemaParts { tables, located };
        Ok(ValidatorSchema::from_parts(alloc, parts)?)
    }

    /// A schema of copies of the tables, where the schema may have but one owner.
    fn copied(&self) -> M<Self>
        ensures schema { IfOk result (λ copy. SameSchema (schema_of copy) (schema_of self.now)) }
        ensures entity_types { IfOk result (λ copy.
            HoldsPairwise IsTypeCopied (schema_entries self.now) (schema_entries copy)) }
        ensures actions { IfOk result (λ copy.
            HoldsPairwise IsActionCopied (action_entries self.now) (action_entries copy)) }
        ensures common_types { IfOk result (λ copy.
            map shown_common_type (common_entries (located_of copy))
            ≡ map shown_common_type (common_entries (located_of self.now))) }
        ensures namespaces { IfOk result (λ copy.
            map shown_entry (namespace_entries (located_of copy))
            ≡ map shown_entry (namespace_entries (located_of self.now))) }
        ensures keys { IfOk result (λ schema.
            AreKeysLocated (schema_entries schema) (action_entries schema)) }
    {
        let content = self.content();
        let alloc = *content.environments.allocator();
        let actions = copied_actions(&content.tables.actions)?;
        let parts = SchemaParts {
            tables: Parts {
                entity_types: copied_types(&content.tables.entity_types)?,
                actions,
            },
            located: Shared::new(alloc, self.located.value().clone()?)?,
        };
        ValidatorSchema::from_parts(alloc, parts)
    }

    /// An equal schema, which shows the same of its fragments. Its entity types and actions, their
    /// names and their attributes are located alike. Out of memory is the only refusal.
    pub fn clone(&self) -> M<Self>
        ensures schema { IfOk result (λ copy. SameSchema (schema_of copy) (schema_of self.now)) }
        ensures entity_types { IfOk result (λ copy.
            HoldsPairwise IsTypeCopied (schema_entries self.now) (schema_entries copy)) }
        ensures actions { IfOk result (λ copy.
            HoldsPairwise IsActionCopied (action_entries self.now) (action_entries copy)) }
        ensures common_types { IfOk result (λ copy.
            map shown_common_type (common_entries (located_of copy))
            ≡ map shown_common_type (common_entries (located_of self.now))) }
        ensures namespaces { IfOk result (λ copy.
            map shown_entry (namespace_entries (located_of copy))
            ≡ map shown_entry (namespace_entries (located_of self.now))) }
        ensures keys { IfOk result (λ schema.
            AreKeysLocated (schema_entries schema) (action_entries schema)) }
    {
        let Some(content) = self.content.other_owner()? else {
            return self.copied();
        };
        let Some(located) = self.located.other_owner()? else {
            return self.copied();
        };
        Ok(ValidatorSchema { content, located })
    }
}

/// What a schema holds, checked, with its descendants closed: itself where nobody else holds it,
/// else a copy of it.
fn validated(
    alloc: Global,
    content: Shared<Content>,
    extensions: &Extensions,
) -> Result<Parts, SchemaError>
    ensures fault { IfErr result (λ error.
        (entities : List ActionEntity) → (fault_of error ≡ out_of_memory)
        ⊎ IsSchemaFault extensions.now
        (plain_schema content.tables.entity_types.entries content.tables.actions.entries entities)
        (fault_of error)) }
    ensures valid { OnOk result ((entities : List ActionEntity)
        → IsValidSchema extensions.now (plain_schema content.tables.entity_types.entries
        content.tables.actions.entries entities)) }
    ensures types_located { IfOk result (λ it.
        types.AreLocatedAsKeys content.tables.entity_types.entries
        → types.AreLocatedAsKeys it.entity_types.entries) }
    ensures actions_located { IfOk result (λ it.
        action.AreLocatedAsKeys content.tables.actions.entries
        → action.AreLocatedAsKeys it.actions.entries) }
    ensures closed { IfOk result (λ it. (entities : List ActionEntity)
        → ClosesSchema
        (plain_schema content.tables.entity_types.entries content.tables.actions.entries entities)
        (whole_schema it.entity_types.entries it.actions.entries)) }
{
    match content.into_value() {
        Ok(content) => {
            let Parts {
                entity_types,
                actions,
            } = content.into_tables();
            validate(alloc, entity_types, actions, extensions)
        }
        Err(content) => {
            let content = content.value();
            validate_copies(
                alloc,
                &content.tables.entity_types,
                &content.tables.actions,
                extensions,
            )
        }
    }
}
