//! The laws of declarations, each as a function whose contract is the law.

ghost use Rattle.std.specs.Prelude.{◌≡◌, List};
ghost use Rattle.cedar_schema_laws.specs.Words.{ActionEntitiesAreDeclared, AdmitsTheSame, Bag, BagsDeclareASchema, BagsDeclareAtMostOneSchema, ConvertedDescendantsAreReached, ConvertedNamesAreNamedAgain, ConvertedSchemasAreDeclared, ConvertedSchemasAreWellFormed, ConvertedTypesElaborate, DeclaredSchemasAreClosed, DeclaredSchemasAreValid, DeclaredSchemasComeBack, DeclaredTypesAreClean, DeclaredTypesHaveTheDeclaredValues, ElaboratesTo, EnvironmentsAreDeclared, Expr, Extensions, Fragment, IsIllFormed, OrderIsNothing, PositionsFit, RawName, ResolutionChangesNothing, SameBagsDeclareTheSame, Ty, TypeNamesFit, definitions, extension_types, raw_bag};

/// In a bag that isn't ill-formed an expression is elaborated as one type at most.
pub fn expressions_are_elaborated_as_one_type()
    ensures { (bag : Bag) (extensions : Extensions) (expr : Expr) (ty other : Ty)
        → TypeNamesFit (extension_types extensions) → ¬ IsIllFormed bag extensions
        → ElaboratesTo (definitions bag extensions) expr ty
        → ElaboratesTo (definitions bag extensions) expr other → ty ≡ other }
{}

/// In a bag that isn't ill-formed the type that an expression is elaborated as has just the values
/// that the expression admits.
pub fn types_have_the_admitted_values()
    ensures { (bag : Bag) (extensions : Extensions) (expr : Expr) (ty : Ty)
        → TypeNamesFit (extension_types extensions) → ¬ IsIllFormed bag extensions
        → ElaboratesTo (definitions bag extensions) expr ty → AdmitsTheSame bag extensions expr ty }
{}

/// A bag that isn't ill-formed declares at most one schema.
pub fn bags_declare_at_most_one_schema()
    ensures { BagsDeclareAtMostOneSchema }
{}

/// A bag that isn't ill-formed declares a schema.
pub fn bags_declare_a_schema()
    ensures { BagsDeclareASchema }
{}

/// The attributes, tags and contexts of the schema that a bag declares which isn't ill-formed have
/// just the values that what is declared of them admits.
pub fn declared_types_have_the_declared_values()
    ensures { DeclaredTypesHaveTheDeclaredValues }
{}

/// Bags that say the same, name by name, are ill-formed both or neither, and declare the same
/// schemas, whatever the split into declarations, and the order and repeats of parents, principals
/// and resources.
pub fn same_bags_declare_the_same()
    ensures { SameBagsDeclareTheSame }
{}

/// A bag in another order is the same bag.
pub fn order_is_nothing()
    ensures { OrderIsNothing }
{}

/// The entities of actions of the schema that a bag declares are those of the actions that the bag
/// defines, each just below the actions whose descendant it is.
pub fn action_entities_are_declared()
    ensures { ActionEntitiesAreDeclared }
{}

/// The schema that a bag declares which isn't ill-formed is valid, where the references of the bag
/// fit their positions; and closing it gives it back, so that validation does.
pub fn declared_schemas_are_valid()
    ensures valid { DeclaredSchemasAreValid }
    ensures closed { DeclaredSchemasAreClosed }
{}

/// The types of attributes, tags and contexts of the schema that a bag declares are clean: the
/// any-set stands nowhere in them.
pub fn declared_types_are_clean()
    ensures { DeclaredTypesAreClean }
{}

/// The references of fragments whose names are as they were written fit their positions.
pub fn raw_references_fit_their_positions()
    ensures { (fragments : List (Fragment RawName)) → PositionsFit (raw_bag fragments) }
{}

/// The environments of the schema that a bag declares, where it isn't ill-formed, are the declared
/// ones: for each action that is defined each pair of a principal and a resource, with the context.
pub fn environments_are_declared()
    ensures { EnvironmentsAreDeclared }
{}

/// Where each reference of a bag is replaced by the one to the name alone that it resolves to, the
/// bag has the same faults as before, and declares the same schemas.
pub fn resolution_changes_nothing()
    ensures { ResolutionChangesNothing }
{}

/// A type that is written in a namespace, with each name in full, is what the expression is
/// elaborated as, over whatever is defined, where each name in it names its entity type again.
pub fn converted_types_elaborate()
    ensures { ConvertedTypesElaborate }
{}

/// In the bag of a schema that is converted back each name of an entity type that is written
/// resolves to itself, where the schema has it, as an entity type or as the type of an action.
pub fn converted_names_are_named_again()
    ensures { ConvertedNamesAreNamedAgain }
{}

/// In the bag of a schema that is writable and converted back an entity type or an action is a
/// descendant of another exactly where one or more steps of the listed descendants lead from the
/// one to the other.
pub fn converted_descendants_are_reached()
    ensures { ConvertedDescendantsAreReached }
{}

/// A valid schema that is writable and converted back, with its entity types and actions in order
/// and under their own names, is declared by its bag, with its descendants closed.
pub fn converted_schemas_are_declared()
    ensures { ConvertedSchemasAreDeclared }
{}

/// The bag of a valid schema that is writable and converted back isn't ill-formed, where its entity
/// types and actions are in order, none of them is reserved, and its contexts are records.
pub fn converted_schemas_are_well_formed()
    ensures { ConvertedSchemasAreWellFormed }
{}

/// The schema that a bag declares which isn't ill-formed comes back, where the references of the
/// bag fit their positions and the schema is writable: the bag of it converted back isn't
/// ill-formed either, and declares the same schema.
pub fn declared_schemas_come_back()
    ensures { DeclaredSchemasComeBack }
{}
