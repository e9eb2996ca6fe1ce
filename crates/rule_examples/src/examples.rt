//! Worked examples of what is said of types.

ghost use Rattle.std.specs.Prelude.{◌≡◌, true, false, [], ◌∷◌, Some, None, Ok, Err, codes};
ghost use Rattle.rule_examples.specs.Words.{AreDisjointTypes, Below, Extensions, HaveOwnBound, IsBound, IsClean, IsConsistent, IsJoinAnswer, IsLeastOwnBound, IsReduceAnswer, IsStated, IsUnknown, JoinAnswer, ListsNames, LubHelp, PlainName, ValidationMode, ValuesIncluded, any_set, any_set_and_long, bar_and_false, bar_and_text, bar_entity, core_empty_set, core_end, core_entity, core_field, core_long, core_of, core_record, core_set, core_truth, foo_entity, foo_name, foo_or_bar, ip_type, long_and_long, never, open_bar, open_t, open_y, optional_y, required_y, set_of, set_of_longs, set_of_truths, text_y, truth, twice_y, ty_text, unit_record};
ghost use Rattle.cedar_ast.specs.declared.validation_mode.ValidationMode.TheVariants as mode;
ghost use Rattle.cedar_type_rules.specs.declared.bool_type.BoolType.TheVariants as bool_type;
ghost use Rattle.cedar_type_rules.specs.declared.join_error.LubHelp.TheVariants as help;

/// Joins of records: in permissive mode a name whose types don't join is dropped, and the join is
/// open; in strict mode there is none.
pub fn records_join()
    ensures permissive { IsLeastOwnBound mode.Permissive bar_and_false bar_and_text open_bar }
    ensures strict { ¬ HaveOwnBound mode.Strict bar_and_false bar_and_text }
    ensures dropped { IsLeastOwnBound mode.Permissive any_set_and_long long_and_long open_t }
{}

/// Joins of sets: sets whose elements don't join have none, though the any-set is above both; the
/// any-set and another set have the any-set.
pub fn sets_join()
    ensures apart { (mode : ValidationMode) → ¬ HaveOwnBound mode set_of_truths set_of_longs }
    ensures bounded { (mode : ValidationMode)
        → IsBound mode (set_of_truths ∷ set_of_longs ∷ []) any_set }
    ensures with_any { (mode : ValidationMode) → IsLeastOwnBound mode any_set set_of_longs any_set }
{}

/// Joins of entity types: their union in permissive mode, and none in strict mode.
pub fn entities_join()
    ensures permissive { IsLeastOwnBound mode.Permissive foo_entity bar_entity foo_or_bar }
    ensures strict { ¬ HaveOwnBound mode.Strict foo_entity bar_entity }
{}

/// Helps of joins that are refused.
pub fn refused_joins_have_helps()
    ensures entity_and_record { (mode : ValidationMode)
        → IsJoinAnswer mode foo_entity unit_record (Err help.EntityRecord) }
    ensures entities { IsJoinAnswer mode.Strict foo_entity bar_entity (Err help.EntityType) }
    ensures sets { IsJoinAnswer mode.Strict (set_of foo_entity) (set_of bar_entity)
        (Err help.EntityType) }
    ensures widths { IsJoinAnswer mode.Strict unit_record required_y (Err help.RecordWidth) }
    ensures flags { IsJoinAnswer mode.Strict required_y optional_y (Err help.AttributeQualifier) }
    ensures flags_alone { (given : LubHelp)
        → IsJoinAnswer mode.Strict required_y optional_y (Err given)
        → given ≡ help.AttributeQualifier }
    ensures types { IsJoinAnswer mode.Strict bar_and_false bar_and_text (Err help.None) }
{}

/// With the any-set, what types are reduced to depends on their order.
pub fn order_matters_with_the_any_set()
    ensures first { (mode : ValidationMode)
        → IsReduceAnswer mode never (any_set ∷ set_of_truths ∷ set_of_longs ∷ []) (Ok any_set) }
    ensures last { (mode : ValidationMode)
        → IsReduceAnswer mode never (set_of_truths ∷ set_of_longs ∷ any_set ∷ []) (Err help.None) }
{}

/// What types are reduced to is well formed, and so is each join before a refusal: two records
/// whose only types don't join are refused for these, and a record that names an attribute twice is
/// no answer.
pub fn reductions_are_of_well_formed_types()
    ensures refused { (given : LubHelp)
        → IsReduceAnswer mode.Strict never (required_y ∷ text_y ∷ []) (Err given)
        → given ≡ help.None }
    ensures alone { (answer : JoinAnswer)
        → IsReduceAnswer mode.Permissive never (open_y ∷ []) answer → answer ≡ Ok open_y }
    ensures twice { ¬ IsReduceAnswer mode.Permissive never (open_y ∷ []) (Ok twice_y) }
{}

/// A type is clean where the any-set stands nowhere in it.
pub fn clean_types()
    ensures clean { IsClean bar_and_text }
    ensures element { ¬ IsClean (set_of any_set) }
    ensures attribute { ¬ IsClean any_set_and_long }
{}

/// Stated types have no `Never` in them, no optional attribute, and no extension type without a
/// value.
pub fn stated_types()
    ensures stated { (extensions : Extensions) → IsStated extensions bar_and_text }
    ensures optional { (extensions : Extensions) → ¬ IsStated extensions optional_y }
    ensures of_never { (extensions : Extensions) → ¬ IsStated extensions (set_of never) }
    ensures without_functions { (extensions : Extensions)
        → ((function : PlainName) → IsUnknown extensions function) → ¬ IsStated extensions ip_type }
{}

/// With an optional attribute, inclusion of values alone isn't subtyping: the names are asked for.
pub fn inclusion_asks_for_names()
    ensures included { (extensions : Extensions)
        → ValuesIncluded extensions unit_record optional_y }
    ensures unlisted { ¬ ListsNames unit_record optional_y }
    ensures not_below { ¬ Below mode.Permissive unit_record optional_y }
{}

/// Types as they are printed.
pub fn texts_of_types()
    ensures closed { ty_text bar_and_text ≡ codes "{bar: Long,foo: String,}" }
    ensures open_one { ty_text open_bar ≡ codes "__cedar::internal::OpenRecord{bar: Long,}" }
    ensures optional { ty_text optional_y ≡ codes "{y?: Long,}" }
    ensures single { ty_text (set_of foo_entity) ≡ codes "Set<Foo>" }
    ensures union { ty_text foo_or_bar ≡ codes "__cedar::internal::Union<Bar, Foo>" }
    ensures every_set { ty_text any_set ≡ codes "Set<__cedar::internal::Any>" }
{}

/// Core types of types, and types that have none.
pub fn core_types()
    ensures known { core_of (truth bool_type.False) ≡ Some core_truth }
    ensures record_type { core_of open_bar
        ≡ Some (core_record (core_field (codes "bar") true core_long core_end) true) }
    ensures every_set { core_of any_set ≡ Some core_empty_set }
    ensures single { core_of (set_of foo_entity) ≡ Some (core_set (core_entity foo_name)) }
    ensures union { core_of (set_of foo_or_bar) ≡ None }
    ensures nothing { core_of (set_of never) ≡ None }
{}

/// Types that are consistent with core types, and types that aren't.
pub fn consistent_types()
    ensures member { IsConsistent foo_or_bar (core_entity foo_name) }
    ensures empty_set { IsConsistent set_of_longs core_empty_set }
    ensures every_set { ¬ IsConsistent any_set (core_set core_long) }
    ensures optional { IsConsistent optional_y (core_record core_end false) }
    ensures required { ¬ IsConsistent required_y (core_record core_end false) }
    ensures open_core { IsConsistent required_y (core_record core_end true) }
{}

/// Entity types without a name in common are disjoint.
pub fn disjoint_types()
    ensures apart { AreDisjointTypes foo_entity bar_entity }
    ensures common { ¬ AreDisjointTypes foo_entity foo_or_bar }
{}
