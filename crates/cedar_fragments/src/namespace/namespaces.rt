//! Fragments of given definitions, and the namespaces that a fragment defines.

ghost use Rattle.std.specs.Prelude.{◌≡◌, IfOk, List, map, length};
ghost use Rattle.std.specs.Iterator.{IsFiniteIterable, at_most};
ghost use Rattle.std.specs.List.{flat_map};
ghost use Rattle.std.specs.Map.Iter.{TakesFirst};
ghost use Rattle.std.specs.Option.{option_copied, option_map};
ghost use Rattle.cedar_fragments.specs.Words.{HoldsOfAll, Reference, definition_declarations, definition_namespace, fragment_declarations, fragment_namespaces, name_of};
ghost use Rattle.cedar_schema_ast.specs.declared.json_schema.reference_type.ReferenceType.{ReferenceType as Kind};

use crate::namespace::definition::ValidatorNamespaceDef;
use crate::namespace::fragment::ValidatorSchemaFragment;
use cedar_ast::{InternalName, M};
use std::alloc::Global;
use std::iter::FusedIterator;
use std::marker::Model;
use std::slice;

/// The namespaces of the definitions that are left, in order, None being the empty one.
#[derive(Drop)]
pub struct Namespaces<'a, N, A> {
    rest: slice::Iter<'a, ValidatorNamespaceDef<N, A>>,
}

impl<'a, N, A> Model for Namespaces<'a, N, A> {
    ghost use Rattle.std.specs.Prelude.{List, Option, map};
    ghost use Rattle.std.specs.Slice.Iter.{iter_rest};
    ghost use Rattle.cedar_ast.specs.declared.internal_name.InternalName.{InternalName};

    ghost Value = { List (Option InternalName) };

    ghost view = { λ a. map (λ definition. definition.namespace) (iter_rest a.rest) };
}

impl<'a, N, A> Iterator for Namespaces<'a, N, A> {
    type Item = Option<&'a InternalName>;

    ghost next_gives = { TakesFirst option_copied };

    ghost remaining = { λ s. at_most (length s) };

    fn next(&mut self) -> Option<Option<&'a InternalName>> {
        let definition = self.rest.next()?;
        Some(definition.namespace.as_ref())
    }
}

impl<'a, N, A> FusedIterator for Namespaces<'a, N, A> {}

impl<N: Drop, A: Drop> ValidatorSchemaFragment<N, A> {
    /// The fragment of these definitions, in order. The definitions have to come to an end. Out
    /// of memory is the only refusal.
    pub fn from_namespaces<I: IntoIterator<Item = ValidatorNamespaceDef<N, A>>>(
        alloc: Global,
        items: I,
    ) -> M<Self>
        requires { IsFiniteIterable I.into_iter_gives I.IntoIter.can_next
            I.IntoIter.remaining items }
        ensures { IfOk result (λ fragment.
            HoldsOfAll I.into_iter_gives I.IntoIter.next_gives items (λ definitions.
            ((refer : Kind → N → Reference) (refer_action : Kind → A → Reference)
            → fragment_declarations N refer A refer_action fragment
            ≡ flat_map (definition_declarations N refer A refer_action) definitions)
            × (fragment_namespaces N A fragment ≡ map (definition_namespace N A) definitions))) }
    {
        Ok(ValidatorSchemaFragment {
            definitions: Vec::from_iter(alloc, items)?,
        })
    }
}

impl<N, A> ValidatorSchemaFragment<N, A> {
    /// The namespaces of the definitions, one for each, in order.
    pub fn namespaces(&self) -> Namespaces<'_, N, A>
        ensures { map (option_map name_of) result ≡ fragment_namespaces N A self.now }
    {
        Namespaces {
            rest: self.definitions.iter(),
        }
    }
}
