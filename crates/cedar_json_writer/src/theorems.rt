//! What is written is read back.

ghost use Rattle.std.specs.Prelude.{◌≡◌, ◌≢◌, ◌<◌, ℕ, List, Some, length, IfErr, IfOk, MatchResult, Result};
ghost use Rattle.cedar_schema_ast.specs.declared.json_schema.fragment.Fragment.{Fragment as Written};
ghost use Rattle.cedar_json_writer.specs.Words.{Describes, IsWritable, RawName, SoundFragment, WrittenFragment, fragment_document, fragment_of, too_long, written_fragment};
ghost use Rattle.cedar_json.specs.declared.text_reading.JsonSchemaFault.{JsonSchemaFault as ReadFault};

use cedar_json::JsonSchemaFault;

/// The object that is written of a fragment which can be written describes it.
pub fn written_fragments_are_described()
    ensures { (it : WrittenFragment) → SoundFragment it → IsWritable it
        → fragment_of (fragment_document it) ≡ Some it }
{}

/// The text that `fragment_to_json` gives for a fragment is read by `fragment_from_json` as the
/// same fragment, locations apart, or memory runs out, where it is shorter than 2^32 - 1 bytes. The
/// premises are what the two calls promise.
pub fn written_fragments_are_read_back()
    ensures { (text : List ℕ) (fragment : Written RawName)
        (answer : Result (Written RawName) ReadFault)
        → (length text < too_long → Describes text (written_fragment fragment))
        → IfOk answer (λ it. Describes text (written_fragment it))
        → IfErr answer (λ fault. fault ≢ JsonSchemaFault.Memory
        → (it : WrittenFragment) → Describes text it → ⊥)
        → length text < too_long
        → MatchResult answer (λ it. written_fragment it ≡ written_fragment fragment)
        (λ fault. fault ≡ JsonSchemaFault.Memory) }
{}
