//! Where to point in the text of a fragment for a refusal of the builder, whatever format the text
//! has.
//!
//! A fragment that was read from a text has the places of its declarations, types and references.
//! [`Places::of`] lists what it declares with these places, before it is built. [`place_of`] gives
//! the place of what a refusal names, and [`second_place_of`] the other one where a refusal is
//! about two. [`theorems`] has laws of these places.
//!
//! | Refusal | Place | Second place |
//! |---|---|---|
//! | attributes of actions | the first action of that id that has attributes | none |
//! | open records | the first record type that admits further attributes | none |
//! | entity types, types and actions that aren't declared | the reference | none |
//! | shadowing | the declaration in a namespace | that in the empty namespace |
//! | two definitions | the definition that was found second | the other declaration |
//! | cycles | a declaration on the cycle | none |
//! | shapes and contexts that are no record types | the declaration | none |
//! | unknown extension types | the first type that names it | none |
//! | reserved names, entity types called `Action` | the declaration or the reference | none |
//! | external and enumerated entity types below others | the lower declaration | the upper one |
//! | descendants and types of actions, put together by hand | the action | none |
//! | what never comes, and memory | none | none |
//!
//! Names and uids in refusals have the places at which they were written. What refusals name by a
//! text alone is looked up in the list.
#![tactic(auto)]

mod listing;
mod place;
mod table;
pub mod theorems;
mod type_listing;
mod written;

pub use place::{place_of, second_place_of};
pub use written::{Places, Written, WrittenAt};
