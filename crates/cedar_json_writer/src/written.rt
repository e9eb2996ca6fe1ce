//! What is written as JSON, by one trait for keys and one for what stands under them.

ghost use Rattle.std.specs.Prelude.{◌≡◌, ◌++◌, ◌∷◌, [], List, Some, OnOk, map};
ghost use Rattle.std.specs.declared.cmp.Ordering.{Ordering};
ghost use Rattle.json.specs.Json.{Json};
ghost use Rattle.json.specs.Token.{key};
ghost use Rattle.cedar_json_writer.specs.Keyed.{SoundKeyed, keyed_document};
ghost use Rattle.cedar_json_writer.specs.Words.{AddsField, AddsValue, Flaw, IsChecked, Text, declared_flaws};

use crate::fault::WriteFault;
use crate::fields::close_object;
use json::{Pretty, Token};
use std::alloc::{AllocError, Global};
use std::collections::BTreeMap;

/// What is written as a JSON value.
///
/// The ghost members are what contracts speak of: the plain data, the value that it is written as,
/// what of it can't be written, what makes it sound, and the plain data of what is written.
pub(crate) trait Written {
    ghost Plain: { Type 0 };

    ghost document: { Plain → Json };

    ghost flaws: { Plain → List Flaw };

    ghost Sound: { Plain → Type 0 };

    ghost shown: { Self → Plain };

    /// Writes the value.
    fn write(&self, alloc: Global, out: &mut Pretty) -> Result<(), WriteFault>
        ensures written { OnOk result (AddsValue out.old out.new (document (shown self.now))) }
        ensures checked { IsChecked result (flaws (shown self.now)) (Sound (shown self.now)) };
}

/// What is written as a key of an object.
///
/// The ghost members are the plain data of keys with their order, the text that is written, and the
/// plain data of a key.
pub(crate) trait Key: Ord {
    ghost PlainKey: { Type 0 };

    ghost order: { PlainKey → PlainKey → Ordering };

    ghost text: { PlainKey → Text };

    ghost shown_key: { Self → PlainKey };

    /// Writes the key.
    fn write_key(&self, alloc: Global, out: &mut Pretty) -> Result<(), AllocError>
        ensures { OnOk result (out.new ≡ out.old ++ key (text (shown_key self.now)) ∷ []) };

    ghost same_order: { (a b : Self) → Self.cmp a b ≡ order (shown_key a) (shown_key b) };
}

impl<K: Key, T: Written> Written for BTreeMap<K, T> {
    ghost Plain = { List (K.PlainKey × T.Plain) };

    ghost document = { keyed_document K.text T.document };

    ghost flaws = { declared_flaws T.flaws };

    ghost Sound = { SoundKeyed K.order T.Sound };

    ghost shown = { λ all. map (λ entry. (K.shown_key entry.0, T.shown entry.1)) all.entries };

    /// Writes the object of what stands under the keys.
    fn write(&self, alloc: Global, out: &mut Pretty) -> Result<(), WriteFault> {
        out.token(Token::BeginObject)?;
        for (key, it) in self {
            key.write_key(alloc, out)?;
            it.write(alloc, out)?;
        }
        close_object(out)
    }
}

/// Writes a field.
pub(crate) fn write_field<T: Written>(
    alloc: Global,
    out: &mut Pretty,
    name: &str,
    it: &T,
) -> Result<(), WriteFault>
    ensures written { OnOk result
        (AddsField out.old out.new name.now (Some (T.document (T.shown it.now)))) }
    ensures checked { IsChecked result (T.flaws (T.shown it.now)) (T.Sound (T.shown it.now)) }
{
    out.token(Token::Key(name))?;
    it.write(alloc, out)
}
