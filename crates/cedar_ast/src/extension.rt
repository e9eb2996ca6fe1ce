//! Extension types and functions: what a schema may name beside Cedar's own types.

ghost use Rattle.std.specs.Prelude.{◌≡◌, ◌↔◌, IsTrue, IsOk, IsSome, IfOk, IfErr, OnErr, OnOk, Contains, map};
ghost use Rattle.cedar_ast.specs.Words.{IsExtensionsFault, PlainName, TypeNamesFit, at_name, extension_types, function_named, plain_name};

use crate::core_schema_type::CoreSchemaType;
use crate::name::Name;
use crate::type_names::{has_name, is_core_type_word, names_fit};
use std::collections::BTreeMap;
use std::error::Error;
use std::fmt;

/// The signature of an extension function.
#[derive(Debug, Drop)]
pub struct ExtensionFunction {
    /// The types of the arguments, in order.
    pub arg_types: Vec<CoreSchemaType>,
    /// The type of the result, or None where it isn't fixed.
    pub return_type: Option<CoreSchemaType>,
}

/// No extension function has the name that was asked for.
#[derive(Clone, Copy, Debug)]
pub struct ExtensionFunctionLookupError<'v> {
    /// The name that was asked for.
    pub name: &'v Name,
}

impl Error for ExtensionFunctionLookupError<'_> {}

impl fmt::Display for ExtensionFunctionLookupError<'_> {
    ghost use Rattle.std.specs.Prelude.{Some};
    ghost use Rattle.cedar_ast.specs.Words.{plain_name, unknown_function_text};

    ghost output = { λ error. Some (unknown_function_text (plain_name error.name.now)) };

    fn fmt<W: fmt::Write>(&self, f: &mut fmt::Formatter<W>) -> fmt::Result {
        write!(f, "no extension function is named {}", self.name)
    }
}

/// Why names can't be those of the extension types of one schema.
#[derive(Debug, Drop)]
pub enum ExtensionsFault {
    /// This name has a path, and names of extension types have none.
    Qualified(Name),
    /// This name stands twice among them.
    Repeated(Name),
    /// This name is that of a core type: `Bool`, `Long` or `String`.
    Primitive(Name),
}

impl fmt::Display for ExtensionsFault {
    ghost use Rattle.std.specs.Prelude.{Some};
    ghost use Rattle.cedar_ast.specs.ExtensionsFaultText.{extensions_fault_text};

    ghost output = { λ fault. Some (extensions_fault_text fault) };

    fn fmt<W: fmt::Write>(&self, f: &mut fmt::Formatter<W>) -> fmt::Result {
        match self {
            ExtensionsFault::Qualified(name) => {
                write!(f, "the extension type {name} is qualified")
            }
            ExtensionsFault::Repeated(name) => {
                write!(f, "the extension type {name} stands twice")
            }
            ExtensionsFault::Primitive(name) => {
                write!(f, "the extension type {name} has the name of a core type")
            }
        }
    }
}

impl Error for ExtensionsFault {}

/// The extension types and the extension functions that a schema may name.
#[derive(Debug)]
pub struct Extensions {
    types: Vec<Name>,
    functions: BTreeMap<Name, ExtensionFunction>,
}

// Written out: proofs of what holds extensions then see one call, and nothing of their parts.
impl Drop for Extensions {
    fn drop(self) {
        let Extensions {
            types: _types,
            functions: _functions,
        } = self;
    }
}

impl Extensions {
    /// The extensions with these types, and with these functions by name.
    pub fn new(types: Vec<Name>, functions: BTreeMap<Name, ExtensionFunction>) -> Self
        ensures types { extension_types result ≡ map plain_name types.items }
        ensures functions { (name : PlainName)
            → function_named result name ≡ at_name functions name }
    {
        Extensions { types, functions }
    }

    /// The extensions with these types, and with these functions by name, where the names of the
    /// types can be told from those of core types and from one another: then `type_names_fit`, as
    /// the builders ask. It is refused exactly where they can't, with a name that has a path,
    /// stands twice, or is `Bool`, `Long` or `String`. It takes no memory.
    ///
    /// ```ignore
    /// let mut types = Vec::new(alloc);
    /// types.push(Name::from_str(alloc, "ipaddr")?)?;
    /// types.push(Name::from_str(alloc, "decimal")?)?;
    /// let extensions = Extensions::try_new(types, BTreeMap::new(alloc))?;
    /// let schema = ValidatorSchema::from_raw_fragments(alloc, fragments, &extensions)?;
    /// ```
    pub fn try_new(
        mut types: Vec<Name>,
        functions: BTreeMap<Name, ExtensionFunction>,
    ) -> Result<Self, ExtensionsFault>
        ensures types { IfOk result (λ it. extension_types it ≡ map plain_name types.items) }
        ensures functions { IfOk result (λ it.
            (name : PlainName) → function_named it name ≡ at_name functions name) }
        ensures fit { OnOk result (TypeNamesFit (map plain_name types.items)) }
        ensures fault { IfErr result (IsExtensionsFault (map plain_name types.items)) }
        ensures unfit { OnErr result (¬ TypeNamesFit (map plain_name types.items)) }
    {
        for at in 0..types.len() {
            let name = &types[at];
            if !name.is_unqualified() {
                return Err(ExtensionsFault::Qualified(types.swap_remove(at)));
            }
            if is_core_type_word(name.basename().as_str()) {
                return Err(ExtensionsFault::Primitive(types.swap_remove(at)));
            }
            if has_name(&types[..at], name) {
                return Err(ExtensionsFault::Repeated(types.swap_remove(at)));
            }
        }
        Ok(Extensions { types, functions })
    }

    /// The names of the extension types, in the order in which they were handed in.
    pub fn ext_types(&self) -> &[Name]
        ensures { map plain_name result.now ≡ extension_types self.now }
    {
        self.types.as_slice()
    }

    /// Whether an extension type has this name, whatever the location.
    pub fn has_type(&self, name: &Name) -> bool
        ensures { IsTrue result ↔ Contains (extension_types self.now) (plain_name name.now) }
    {
        has_name(&self.types, name)
    }

    /// The extension function of this name, or the name in an error where there is none.
    pub fn func<'v>(
        &self,
        name: &'v Name,
    ) -> Result<&ExtensionFunction, ExtensionFunctionLookupError<'v>>
        ensures known { IsOk result ↔ IsSome (function_named self.now (plain_name name.now)) }
        ensures function { IfOk result (λ function.
            function_named self.now (plain_name name.now) ≡ Some function.now) }
        ensures name { IfErr result (λ error. error.name.now ≡ name.now) }
    {
        self.functions
            .get(name)
            .ok_or(ExtensionFunctionLookupError { name })
    }

    /// Whether the names of the extension types can be told from those of core types and from one
    /// another: each is unqualified, none is `Bool`, `Long` or `String`, and none stands twice.
    pub fn type_names_fit(&self) -> bool
        ensures { IsTrue result ↔ TypeNamesFit (extension_types self.now) }
    {
        names_fit(&self.types)
    }
}
