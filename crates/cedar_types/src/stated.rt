//! Types that are inhabited by samples, in which no part is without values, and those that are
//! stated with them, in which all attributes are required too.

ghost use Rattle.std.specs.Prelude.{◌≡◌, ◌↔◌, IsTrue, Contains, IfSome, None};
ghost use Rattle.cedar_types.specs.Words.{AreInhabitedWith, FieldsRequireAll, Has, IsInhabited, IsInhabitedWith, IsSampled, IsStated, IsStatedWith, RequiresAll, fields_of, ty_of, value_tree, value_trees};

use crate::attributes::Attributes;
use crate::types::Type;
use cedar_ast::{Extensions, Value};

/// Whether the type of each attribute is inhabited by the samples.
#[cycle(sampled)]
fn are_sampled(attrs: &Attributes, extensions: &Extensions, samples: &[Value]) -> bool
    ensures { IsTrue result ↔ AreInhabitedWith extensions.now (value_trees samples.now)
        (fields_of attrs.now) }
{
    for (_, attribute) in attrs.attrs.as_slice() {
        if !attribute.attr_type.is_inhabited_with(extensions, samples) {
            return false;
        }
    }
    true
}

/// Whether each attribute is required, and so is every one in its type.
#[cycle(required)]
fn require_all(attrs: &Attributes) -> bool
    ensures { IsTrue result ↔ FieldsRequireAll (fields_of attrs.now) }
{
    for (_, attribute) in attrs.attrs.as_slice() {
        if !attribute.is_required {
            return false;
        }
        if !attribute.attr_type.requires_all() {
            return false;
        }
    }
    true
}

impl Type {
    /// The first of some samples that has this type, if one has.
    pub fn sample_among<'s>(
        &self,
        extensions: &Extensions,
        samples: &'s [Value],
    ) -> Option<&'s Value>
        ensures among { IfSome result (λ sample. Contains samples.now sample.now) }
        ensures has { IfSome result (λ sample.
            Has extensions.now (value_tree sample.now) (ty_of self.now)) }
        ensures none { result ≡ None → ¬ IsSampled extensions.now (value_trees samples.now)
            (ty_of self.now) }
    {
        for sample in samples {
            if let Ok(true) = self.typecheck_value(sample, extensions) {
                return Some(sample);
            }
        }
        None
    }

    /// Whether the type is inhabited by the samples.
    #[cycle(sampled)]
    fn is_inhabited_with(&self, extensions: &Extensions, samples: &[Value]) -> bool
        ensures { IsTrue result ↔ IsInhabitedWith extensions.now (value_trees samples.now)
            (ty_of self.now) }
    {
        match self {
            Type::Never => false,
            Type::Set {
                element_type: Some(element),
            } => element.is_inhabited_with(extensions, samples),
            Type::Record { attrs, .. } => are_sampled(attrs, extensions, samples),
            Type::ExtensionType { .. } => self.sample_among(extensions, samples).is_some(),
            _ => true,
        }
    }

    /// Whether every attribute that stands in the type is required.
    #[cycle(required)]
    fn requires_all(&self) -> bool
        ensures { IsTrue result ↔ RequiresAll (ty_of self.now) }
    {
        match self {
            Type::Set {
                element_type: Some(element),
            } => element.requires_all(),
            Type::Record { attrs, .. } => require_all(attrs),
            _ => true,
        }
    }

    /// Whether no `Never` stands in the type, and each extension type in it has one of the samples.
    ///
    /// Such a type has a value, and so has each part of it. Attributes may be optional, records
    /// open, and the any-set may stand anywhere.
    pub fn is_sampled(&self, extensions: &Extensions, samples: &[Value]) -> bool
        ensures sampled { IsTrue result
            ↔ IsInhabitedWith extensions.now (value_trees samples.now) (ty_of self.now) }
        ensures inhabited { IsTrue result → IsInhabited extensions.now (ty_of self.now) }
    {
        self.is_inhabited_with(extensions, samples)
    }

    /// Whether no `Never` stands in the type, each attribute in it is required, and each extension
    /// type in it has one of the samples.
    ///
    /// Of two such types, permissive subtyping is inclusion of values.
    pub fn is_stated(&self, extensions: &Extensions, samples: &[Value]) -> bool
        ensures stated_with { IsTrue result
            ↔ IsStatedWith extensions.now (value_trees samples.now) (ty_of self.now) }
        ensures stated { IsTrue result → IsStated extensions.now (ty_of self.now) }
    {
        self.is_sampled(extensions, samples) && self.requires_all()
    }
}
