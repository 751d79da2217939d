//! Sorts, terms, sequents and obligations, and the names that they are printed with.
//!
//! A type that leads back to itself holds its own values through `Boxed` and `Items`, which
//! contracts see as the value and as the list: so a copy is plainly equal to what it copies.
#![tactic(auto)]

mod measuring;
mod names;
mod naming;
mod obligation;
mod replacing;
mod sequent;
mod sort;
mod telling;
mod term;

pub use measuring::{depth, size};
pub use names::{OpNames, SortEntry, SortNames};
pub use naming::{free_names, has_name};
pub use obligation::{Obligation, Obligations};
pub use replacing::{Entries, Entry, put_entries, subst};
pub use sequent::{Sequent, Var, Vars};
pub use sort::{Sort, Sorts};
pub use telling::{
    equal, equal_all, equal_sort_lists, equal_sorts, oper_number, same_oper, same_text,
};
pub use term::{Oper, Term, Terms};
