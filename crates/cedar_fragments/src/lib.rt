//! Fragments whose names are on the way to being resolved, and what they declare.
//!
//! [`namespace`] has fragments and the definitions of their namespaces, over conditional names and
//! over full names, and takes the one to the other. [`CollectedDeclarations`] takes what fragments
//! declare out of one after another: the names, and the declarations, kind by kind
//! ([`Declarations`]), each with the namespace that its names are written in. [`theorems`] has laws
//! of these.
#![tactic(auto)]

pub use collected_declarations::CollectedDeclarations;
pub use declarations::{Declarations, DeclaredAction, DeclaredEntityType};

mod collected_declarations;
mod collecting;
mod declarations;
pub mod namespace;
pub mod theorems;
