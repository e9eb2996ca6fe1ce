//! Worked examples of subtyping, of agreement and of membership.

ghost use Rattle.std.specs.Prelude.{◌≢◌, true, false, [], ◌∷◌, codes, pos};
ghost use Rattle.rule_examples.specs.Words.{Agree, Below, ClosedAttributes, Extensions, Has, IsUnknown, MayHave, Meets, OpenAttributes, Permissive, PlainName, Strict, TakesText, Text, Tree, Trees, Ty, ValidationMode, any_entity, any_set, call_value, end, entry, extension_of, field, long, map_value, never, no_entry, no_tree, number_value, record_of, set_of, set_value, text_value, tree, truth, uid_value, union_of};
ghost use Rattle.cedar_type_rules.specs.declared.bool_type.BoolType.TheVariants as bool_type;

/// Sets are below sets of more, and all are below the any-set.
pub fn sets_by_example()
    ensures nothing { (mode : ValidationMode) → Below mode (set_of never) (set_of long) }
    ensures known { (mode : ValidationMode)
        → Below mode (set_of (truth bool_type.True)) (set_of (truth bool_type.AnyBool)) }
    ensures not_less { (mode : ValidationMode)
        → ¬ Below mode (set_of (truth bool_type.AnyBool)) (set_of (truth bool_type.True)) }
    ensures any { (mode : ValidationMode) (element : Ty) → Below mode (set_of element) any_set }
    ensures not_any { (mode : ValidationMode) → ¬ Below mode any_set (set_of long) }
{}

/// Of closed records `{a: True}` is below `{a: Bool}`, `{a: Long}` is below `{a?: Long}` in
/// permissive mode alone, and `{}` isn't below `{y?: Long}`, though the empty record has both
/// types.
pub fn closed_records_by_example()
    ensures known { (mode : ValidationMode) →
        Below mode (record_of (field (codes "a") true (truth bool_type.True) end) ClosedAttributes)
        (record_of (field (codes "a") true (truth bool_type.AnyBool) end) ClosedAttributes) }
    ensures optional { Below Permissive
        (record_of (field (codes "a") true long end) ClosedAttributes)
        (record_of (field (codes "a") false long end) ClosedAttributes) }
    ensures not_optional { ¬ Below Strict
        (record_of (field (codes "a") true long end) ClosedAttributes)
        (record_of (field (codes "a") false long end) ClosedAttributes) }
    ensures no_new_name { (mode : ValidationMode) → ¬ Below mode (record_of end ClosedAttributes)
        (record_of (field (codes "y") false long end) ClosedAttributes) }
    ensures no_fewer_names { (mode : ValidationMode)
        → ¬ Below mode (record_of (field (codes "a") true long end) ClosedAttributes)
        (record_of end ClosedAttributes) }
    ensures empty { (extensions : Extensions)
        → Has extensions (map_value no_entry) (record_of end ClosedAttributes) }
    ensures empty_too { (extensions : Extensions) →
        Has extensions (map_value no_entry)
        (record_of (field (codes "y") false long end) ClosedAttributes) }
{}

/// An open record is never below a closed one, and lists fewer names above in permissive mode
/// alone.
pub fn open_records_by_example()
    ensures fewer_names { Below Permissive
        (record_of (field (codes "a") true long end) OpenAttributes)
        (record_of end OpenAttributes) }
    ensures same_names { ¬ Below Strict (record_of (field (codes "a") true long end) OpenAttributes)
        (record_of end OpenAttributes) }
    ensures closed { (mode : ValidationMode)
        → Below mode (record_of end ClosedAttributes) (record_of end OpenAttributes) }
    ensures not_open { (mode : ValidationMode)
        → ¬ Below mode (record_of end OpenAttributes) (record_of end ClosedAttributes) }
{}

/// In permissive mode an entity is below each union with its types and below any entity, and in
/// strict mode below its own kind alone.
pub fn entities_by_example()
    ensures union { (color shape : PlainName)
        → Below Permissive (union_of (color ∷ [])) (union_of (color ∷ shape ∷ [])) }
    ensures not_union { (color shape : PlainName)
        → ¬ Below Strict (union_of (color ∷ [])) (union_of (color ∷ shape ∷ [])) }
    ensures any { (color : PlainName) → Below Permissive (union_of (color ∷ [])) any_entity }
    ensures not_any { (color : PlainName) → ¬ Below Strict (union_of (color ∷ [])) any_entity }
    ensures not_less { (mode : ValidationMode) (color shape : PlainName) → color ≢ shape →
        ¬ Below mode (union_of (color ∷ shape ∷ [])) (union_of (color ∷ [])) }
    ensures has { (extensions : Extensions) (color : PlainName) (id : Text) →
        Has extensions (uid_value (record { ty = color; eid = id })) (union_of (color ∷ [])) }
    ensures lacks { (extensions : Extensions) (color shape : PlainName) (id : Text)
        → color ≢ shape →
        ¬ MayHave extensions (uid_value (record { ty = shape; eid = id })) (union_of (color ∷ [])) }
{}

/// Records agree by their names and flags, whatever their tags, and entities by their kinds.
pub fn agreement_by_example()
    ensures never { (ty : Ty) → Agree never ty }
    ensures any_set { (ty : Ty) → Agree (set_of ty) any_set }
    ensures tags { Agree (record_of end ClosedAttributes) (record_of end OpenAttributes) }
    ensures flags { ¬ Agree (record_of (field (codes "a") true long end) ClosedAttributes)
        (record_of (field (codes "a") false long end) ClosedAttributes) }
    ensures names { ¬ Agree (record_of (field (codes "a") true long end) OpenAttributes)
        (record_of end OpenAttributes) }
    ensures kinds { (color : PlainName) → ¬ Agree (union_of (color ∷ [])) any_entity }
    ensures kinds_in_sets { (color : PlainName)
        → ¬ Agree (set_of (union_of (color ∷ []))) (set_of any_entity) }
{}

/// A record has a record type if what is required is there, and what is unlisted only if it is
/// open.
pub fn members_of_records_by_example()
    ensures listed { (extensions : Extensions)
        → Has extensions (map_value (entry (codes "a") (number_value (pos 1)) no_entry))
        (record_of (field (codes "a") true long end) ClosedAttributes) }
    ensures other_kind { (extensions : Extensions) →
        ¬ MayHave extensions (map_value (entry (codes "a") (text_value (codes "x")) no_entry))
        (record_of (field (codes "a") true long end) ClosedAttributes) }
    ensures missing { (extensions : Extensions) → ¬ MayHave extensions (map_value no_entry)
        (record_of (field (codes "a") true long end) ClosedAttributes) }
    ensures unlisted { (extensions : Extensions) (value : Tree) →
        ¬ MayHave extensions (map_value
        (entry (codes "a") (number_value (pos 1)) (entry (codes "z") value no_entry)))
        (record_of (field (codes "a") true long end) ClosedAttributes) }
    ensures unlisted_in_open { (extensions : Extensions) (value : Tree) →
        Has extensions (map_value (entry (codes "a") (number_value (pos 1))
        (entry (codes "z") value no_entry)))
        (record_of (field (codes "a") true long end) OpenAttributes) }
{}

/// A call of a function that takes a text has the type that it returns where its first argument, if
/// there is one, is a text; further arguments aren't looked at.
pub fn known_calls_by_example()
    ensures none { (extensions : Extensions) (ip ipaddr : PlainName)
        → TakesText extensions ip ipaddr →
        Has extensions (call_value ip no_tree) (extension_of ipaddr) }
    ensures first { (extensions : Extensions) (ip ipaddr : PlainName) (word : Text) (rest : Trees) →
        TakesText extensions ip ipaddr →
        Has extensions (call_value ip (tree (text_value word) rest)) (extension_of ipaddr) }
    ensures number { (extensions : Extensions) (ip ipaddr : PlainName)
        → TakesText extensions ip ipaddr →
        ¬ MayHave extensions (call_value ip (tree (number_value (pos 3)) no_tree))
        (extension_of ipaddr) }
    ensures unknown { (extensions : Extensions) (ip ipaddr unknown : PlainName)
        → TakesText extensions ip ipaddr →
        ¬ MayHave extensions (call_value ip (tree (call_value unknown no_tree) no_tree))
        (extension_of ipaddr) }
{}

/// A call of an unknown function may have each extension type, and has none. It is met at an
/// extension type, also within sets and records, but not as an argument of another call.
pub fn unknown_calls_by_example()
    ensures may_have { (extensions : Extensions) (unknown ty : PlainName) (args : Trees)
        → IsUnknown extensions unknown →
        MayHave extensions (call_value unknown args) (extension_of ty) }
    ensures has_not { (extensions : Extensions) (unknown ty : PlainName) (args : Trees)
        → IsUnknown extensions unknown →
        ¬ Has extensions (call_value unknown args) (extension_of ty) }
    ensures long { (extensions : Extensions) (unknown : PlainName) (args : Trees) →
        ¬ MayHave extensions (call_value unknown args) long }
    ensures meets { (extensions : Extensions) (unknown ty : PlainName) (args : Trees)
        → IsUnknown extensions unknown →
        Meets extensions unknown (call_value unknown args) (extension_of ty) }
    ensures in_set { (extensions : Extensions) (unknown ty : PlainName) (args : Trees)
        (value : Tree) →
        IsUnknown extensions unknown →
        Meets extensions unknown (set_value (tree value (tree (call_value unknown args) no_tree)))
        (set_of (extension_of ty)) }
    ensures beside_a_member { (extensions : Extensions) (ip ipaddr unknown : PlainName)
        (word : Text) →
        TakesText extensions ip ipaddr → IsUnknown extensions unknown →
        MayHave extensions
        (set_value (tree (call_value ip (tree (text_value word) no_tree))
        (tree (call_value unknown no_tree) no_tree)))
        (set_of (extension_of ipaddr)) }
    ensures no_member { (extensions : Extensions) (ip ipaddr unknown : PlainName) (word : Text) →
        TakesText extensions ip ipaddr → IsUnknown extensions unknown →
        ¬ Has extensions
        (set_value (tree (call_value ip (tree (text_value word) no_tree))
        (tree (call_value unknown no_tree) no_tree)))
        (set_of (extension_of ipaddr)) }
    ensures as_argument { (extensions : Extensions) (function unknown ty : PlainName) (args : Trees)
        → function ≢ unknown →
        ¬ Meets extensions unknown (call_value function (tree (call_value unknown args) no_tree))
        (extension_of ty) }
    ensures beside_a_mismatch { (extensions : Extensions) (unknown ty : PlainName) (args : Trees) →
        ¬ MayHave extensions
        (map_value (entry (codes "a") (call_value unknown args)
        (entry (codes "b") (text_value (codes "x")) no_entry)))
        (record_of (field (codes "a") true (extension_of ty)
        (field (codes "b") true long end)) ClosedAttributes) }
{}
