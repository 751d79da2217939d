// Free names, and names apart from others.
ghost use Rattle.std.specs.Prelude.{◌≡◌, ◌∷◌, [], ◌++◌, IfOk, OnOk};
ghost use Rattle.term_core.specs.Names.{has, union, without, tick, base, fresh};
ghost use Rattle.term_core.specs.Substitution.{free};

use crate::Term;
use crate::telling::same_text;
use base_kit::{Copied, Memory, Names, Text};
use std::alloc::Global;

/// Whether a name is among names.
pub fn has_name(names: &[Text], name: &Text) -> bool
    ensures { result ≡ has names.now name.now }
{
    for other in names {
        if same_text(other, name) {
            return true;
        }
    }
    false
}

// Adds the names of `more` that aren't there yet.
pub(crate) fn add_names(alloc: Global, names: &mut Names, more: &[Text]) -> Result<(), Memory>
    ensures { OnOk result (names.new ≡ union names.old more.now) }
{
    for name in more {
        if !has_name(names.as_slice(), name) {
            names.push(name.copy(alloc)?)?;
        }
    }
    Ok(())
}

pub(crate) fn all_but(alloc: Global, name: &Text, names: &[Text]) -> Result<Names, Memory>
    ensures { IfOk result (λ left. left ≡ without name.now names.now) }
{
    let mut left = Names::new(alloc);
    for other in names {
        if !same_text(other, name) {
            left.push(other.copy(alloc)?)?;
        }
    }
    Ok(left)
}

pub(crate) fn one_name(alloc: Global, name: &Text) -> Result<Names, Memory>
    ensures { IfOk result (λ names. names ≡ name.now ∷ []) }
{
    let mut names = Names::new(alloc);
    names.push(name.copy(alloc)?)?;
    Ok(names)
}

// The free names of a quantifier, from those of its bounds and of its body.
fn around(
    alloc: Global,
    name: &Text,
    low: Names,
    high: Names,
    body: &Names,
) -> Result<Names, Memory>
    ensures { IfOk result (λ names. names ≡ union low (union high (without name.now body.now))) }
{
    let mut names = low;
    let mut above = high;
    let left = all_but(alloc, name, body.as_slice())?;
    add_names(alloc, &mut above, left.as_slice())?;
    add_names(alloc, &mut names, above.as_slice())?;
    Ok(names)
}

/// The free names of a term, each once.
#[tactic(auto, unfolding(crate::specs::Substitution::free))]
pub fn free_names(alloc: Global, term: &Term) -> Result<Names, Memory>
    ensures { IfOk result (λ names. names ≡ free term.now) }
{
    match term {
        Term::Int(_) => Ok(Names::new(alloc)),
        Term::Truth(_) => Ok(Names::new(alloc)),
        Term::Var(name) => one_name(alloc, name),
        Term::Op(_, terms) => {
            let parts = terms.as_slice();
            let mut rest = Names::new(alloc);
            for i in (0..parts.len()).rev() {
                let mut names = free_names(alloc, &parts[i])?;
                add_names(alloc, &mut names, rest.as_slice())?;
                rest = names;
            }
            Ok(rest)
        }
        Term::All(name, low, high, body) => {
            let under = free_names(alloc, low.get())?;
            let above = free_names(alloc, high.get())?;
            let inside = free_names(alloc, body.get())?;
            around(alloc, name, under, above, &inside)
        }
        Term::Some(name, low, high, body) => {
            let under = free_names(alloc, low.get())?;
            let above = free_names(alloc, high.get())?;
            let inside = free_names(alloc, body.get())?;
            around(alloc, name, under, above, &inside)
        }
    }
}

// The name without any `'` at its end.
fn base_of(alloc: Global, name: &Text) -> Result<Vec<u8>, Memory>
    ensures { IfOk result (λ made. made.items ≡ base name.now) }
{
    let bytes = name.as_bytes();
    let mut n = bytes.len();
    while n > 0 && bytes[n - 1] == b'\'' {
        n -= 1;
    }
    Ok(Vec::from_slice(alloc, &bytes[..n])?)
}

// The name without any `'` at its end, with as few as keep it apart from those that are taken.
pub(crate) fn fresh_name(alloc: Global, taken: &[Text], name: &Text) -> Result<Text, Memory>
    ensures { IfOk result (λ made. made ≡ fresh taken.now name.now) }
{
    let mut made = Text::from(base_of(alloc, name)?);
    for _ in 0..taken.len() {
        if !has_name(taken, &made) {
            return Ok(made);
        }
        made = ticked(made)?;
    }
    Ok(made)
}

// The name with a `'` more.
fn ticked(name: Text) -> Result<Text, Memory>
    ensures { IfOk result (λ made. made ≡ name ++ tick ∷ []) }
{
    let mut bytes = name.into_vec();
    bytes.push(b'\'')?;
    Ok(Text::from(bytes))
}
