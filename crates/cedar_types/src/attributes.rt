//! Attributes of records, by name.

ghost use Rattle.std.specs.Prelude.{◌≡◌, ◌<◌, ◌≤◌, ◌^◌, ◌++◌, ℕ, length, true, false, map, IfOk, Option, Some, None, codes, string_bytes};
ghost use Rattle.std.specs.Iterator.{IsFiniteIterable};
ghost use Rattle.std.specs.Option.{option_copied, option_map};
ghost use Rattle.cedar_types.specs.Words.{AreSortedByName, HoldsLast, HoldsOfAll, IsSortedByName, KeepsLast, Loc, Text, attribute_loc, attribute_of, end, field_at, field_names, fields_from, fields_of, fields_text, located, located_at, located_attributes, located_required, plain_attributes, plain_required, ty_of, value_at};

use crate::show::write_attribute;
use crate::types::Type;
use cedar_ast::{Loc, M};
use cedar_name_map::{ByName, Entries, Names};
use std::alloc::Global;
use std::fmt;
use std::rc::Rc;

/// The attributes of a record type or an entity type by name, in the names' order.
///
/// Copies share them.
#[derive(Debug, PartialEq, Eq, PartialOrd, Ord, Hash)]
#[cycle(types)]
pub struct Attributes {
    pub(crate) attrs: Rc<ByName<AttributeType>>,
}

// Written out: proofs of what holds attributes then see one call, and nothing of their parts.
impl Drop for Attributes {
    #[cycle(types)]
    fn drop(self) {
        let Attributes { attrs: _attrs } = self;
    }
}

/// An attribute: the type of its values, and whether it has to be there.
///
/// Equality, order and hash ignore the location.
#[derive(Debug, Drop)]
#[derive_where(PartialEq, Eq, PartialOrd, Ord, Hash)]
#[cycle(types)]
pub struct AttributeType {
    /// The type of the attribute's values.
    pub attr_type: Rc<Type>,
    /// Whether the attribute has to be there.
    pub is_required: bool,
    /// Where the attribute was declared, if that is known.
    #[derive_where(skip(EqHashOrd))]
    pub loc: Option<Loc>,
}

impl AttributeType {
    /// An attribute of this type, without a location.
    pub fn new(attr_type: Rc<Type>, is_required: bool) -> Self
        ensures attribute { attribute_of result ≡ (is_required, ty_of attr_type.value) }
        ensures loc { attribute_loc result ≡ None }
        ensures located { located result
            ≡ record { ty = attr_type.value; required = is_required; loc = None } }
    {
        AttributeType {
            attr_type,
            is_required,
            loc: None,
        }
    }

    /// An attribute of this type, declared at this location.
    pub fn new_with_loc(attr_type: Rc<Type>, is_required: bool, loc: Option<Loc>) -> Self
        ensures attribute { attribute_of result ≡ (is_required, ty_of attr_type.value) }
        ensures loc { attribute_loc result ≡ loc }
        ensures located { located result
            ≡ record { ty = attr_type.value; required = is_required; loc = loc } }
    {
        AttributeType {
            attr_type,
            is_required,
            loc,
        }
    }

    /// An attribute of this type that has to be there, without a location.
    pub fn required_attribute(attr_type: Rc<Type>) -> Self
        ensures attribute { attribute_of result ≡ (true, ty_of attr_type.value) }
        ensures loc { attribute_loc result ≡ None }
        ensures located { located result
            ≡ record { ty = attr_type.value; required = true; loc = None } }
    {
        AttributeType::new(attr_type, true)
    }

    /// An attribute of this type that may be missing, without a location.
    pub fn optional_attribute(attr_type: Rc<Type>) -> Self
        ensures attribute { attribute_of result ≡ (false, ty_of attr_type.value) }
        ensures loc { attribute_loc result ≡ None }
        ensures located { located result
            ≡ record { ty = attr_type.value; required = false; loc = None } }
    {
        AttributeType::new(attr_type, false)
    }

    /// Whether the attribute has to be there.
    pub fn is_required(&self) -> bool
        ensures { result ≡ (attribute_of self.now).0 }
    {
        self.is_required
    }

    /// An equal attribute at the same location. Out of memory is the only refusal.
    pub fn clone(&self) -> M<Self>
        ensures attribute { IfOk result (λ copy. attribute_of copy ≡ attribute_of self.now) }
        ensures loc { IfOk result (λ copy. attribute_loc copy ≡ attribute_loc self.now) }
        ensures located { IfOk result (λ copy. located copy ≡ located self.now) }
    {
        Ok(AttributeType {
            attr_type: self.attr_type.clone()?,
            is_required: self.is_required,
            loc: self.loc,
        })
    }
}

impl Attributes {
    /// The attributes of these names, with their locations, in whatever order. Of repeated names
    /// the last wins. The list becomes that of the attributes. Out of memory is the only refusal.
    pub fn from_entries(alloc: Global, entries: Vec<(String, AttributeType)>) -> M<Self>
        ensures attributes { IfOk result (λ all.
            HoldsLast (plain_attributes entries.items) (fields_of all)) }
        ensures located { IfOk result (λ all. KeepsLast (located_attributes entries.items) all) }
        ensures sorted_by_name { IfOk result (λ all. IsSortedByName (fields_of all)) }
    {
        Ok(Attributes {
            attrs: Rc::new(alloc, ByName::from_entries(entries)?)?,
        })
    }

    /// The attributes of these pairs, whose names are sorted without duplicates.
    pub(crate) fn from_sorted_by_name(
        alloc: Global,
        entries: Vec<(String, AttributeType)>,
    ) -> M<Self>
        requires { AreSortedByName entries.items }
        ensures attributes { IfOk result (λ all.
            fields_of all ≡ fields_from (plain_attributes entries.items)) }
        ensures located { IfOk result (λ all.
            (name : Text) → located_at name all
            ≡ option_map located (value_at name entries.items)) }
    {
        Ok(Attributes {
            attrs: Rc::new(alloc, ByName::from_sorted_by_name(entries))?,
        })
    }

    /// No attributes. Out of memory is the only refusal.
    pub fn empty(alloc: Global) -> M<Self>
        ensures { IfOk result (λ all. fields_of all ≡ end) }
    {
        Attributes::from_entries(alloc, Vec::new(alloc))
    }

    /// The attributes of these names, with their locations. Of repeated names the last wins. The
    /// items have to come to an end. Out of memory is the only refusal.
    pub fn with_attributes<I: IntoIterator<Item = (String, AttributeType)>>(
        alloc: Global,
        items: I,
    ) -> M<Self>
        requires { IsFiniteIterable I.into_iter_gives I.IntoIter.can_next
            I.IntoIter.remaining items }
        ensures attributes { IfOk result (λ all.
            HoldsOfAll I.into_iter_gives I.IntoIter.next_gives items
            (λ xs. HoldsLast (plain_attributes xs) (fields_of all)
            × KeepsLast (located_attributes xs) all)) }
        ensures sorted_by_name { IfOk result (λ all. IsSortedByName (fields_of all)) }
    {
        let mut entries = Vec::new(alloc);
        for (name, attribute) in items {
            entries.push((name, attribute))?;
        }
        Attributes::from_entries(alloc, entries)
    }

    /// The attributes of these names, each of which has to be there. Of repeated names the last
    /// wins. The items have to come to an end. Out of memory is the only refusal.
    pub fn with_required_attributes<I: IntoIterator<Item = (String, Rc<Type>)>>(
        alloc: Global,
        items: I,
    ) -> M<Self>
        requires { IsFiniteIterable I.into_iter_gives I.IntoIter.can_next
            I.IntoIter.remaining items }
        ensures attributes { IfOk result (λ all.
            HoldsOfAll I.into_iter_gives I.IntoIter.next_gives items
            (λ xs. HoldsLast (plain_required xs) (fields_of all)
            × KeepsLast (located_required xs) all)) }
        ensures sorted_by_name { IfOk result (λ all. IsSortedByName (fields_of all)) }
    {
        let mut entries = Vec::new(alloc);
        for (name, ty) in items {
            entries.push((name, AttributeType::required_attribute(ty)))?;
        }
        Attributes::from_entries(alloc, entries)
    }

    /// The attributes with their names, in the names' order.
    pub fn iter(&self) -> Entries<'_, AttributeType>
        ensures attributes { fields_from (plain_attributes result) ≡ fields_of self.now }
        ensures sorted_by_name { IsSortedByName (fields_of self.now) }
    {
        Entries::new(self.attrs.as_slice())
    }

    /// The names of the attributes, in their order.
    pub fn keys(&self) -> Names<'_, AttributeType>
        ensures names { map string_bytes result ≡ field_names (fields_of self.now) }
        ensures sorted_by_name { IsSortedByName (fields_of self.now) }
    {
        Names::new(self.attrs.as_slice())
    }

    /// The attribute of this name, if there is one.
    pub fn get_attr(&self, name: &str) -> Option<&AttributeType>
        ensures attribute { option_map attribute_of (option_copied result)
            ≡ field_at name.now (fields_of self.now) }
        ensures located { option_map located (option_copied result) ≡ located_at name.now self.now }
    {
        self.get_attr_counted(name).0
    }

    /// The attribute of this name, if there is one, and how many names were compared with it: at
    /// most k where there are fewer than 2 to the k attributes.
    pub fn get_attr_counted(&self, name: &str) -> (Option<&AttributeType>, u32)
        ensures attribute { option_map attribute_of (option_copied result.0)
            ≡ field_at name.now (fields_of self.now) }
        ensures located { option_map located (option_copied result.0)
            ≡ located_at name.now self.now }
        ensures compared { (k : ℕ) → length (field_names (fields_of self.now)) < 2 ^ k
            → result.1 ≤ k }
    {
        self.attrs.get_counted(name)
    }

    /// The same attributes at the same locations, which are shared. Out of memory is the only
    /// refusal.
    pub fn clone(&self) -> M<Self>
        ensures attributes { IfOk result (λ copy. fields_of copy ≡ fields_of self.now) }
        ensures located { IfOk result (λ copy.
            (name : Text) → located_at name copy ≡ located_at name self.now) }
    {
        Ok(Attributes {
            attrs: self.attrs.clone()?,
        })
    }
}

impl fmt::Display for Attributes {
    ghost output = { λ all. Some (codes "{" ++ fields_text (fields_of all) ++ codes "}") };

    /// Writes `{`, for each attribute `name: TYPE,` or `name?: TYPE,`, and `}`.
    #[cycle(show)]
    fn fmt<W: fmt::Write>(&self, f: &mut fmt::Formatter<W>) -> fmt::Result {
        f.write_str("{")?;
        for (name, attribute) in self.attrs.as_slice() {
            write_attribute(name, attribute, f)?;
        }
        f.write_str("}")
    }
}
