// Substitution.
ghost use Rattle.std.specs.Prelude.{◌≡◌, List, ◌∷◌, [], ◌++◌, IfOk, OnOk, unwrap_or};
ghost use Rattle.std.specs.Option.{option_copied};
ghost use Rattle.term_core.specs.Names.{without, union_all};
ghost use Rattle.term_core.specs.Terms.{var, Quantifier, for_all, exists, quantify};
ghost use Rattle.term_core.specs.Substitution.{free, frees, new_name, put, subst_of, sub_of, renamed, normal_entries, put_all};
ghost use Rattle.term_core.specs.declared.replacing.Entry.{Entry};

use crate::Term;
use crate::naming::{add_names, all_but, free_names, fresh_name, one_name};
use crate::telling::same_text;
use base_kit::{Copied, Listed, Memory, Names, Text};
use sqlite_items::{Boxed, Items};
use std::alloc::Global;

/// What stands for a name.
#[derive(Drop)]
pub struct Entry {
    pub name: Text,
    pub by: Term,
}

impl Copied for Entry {
    fn copy(&self, alloc: Global) -> Result<Self, Memory> {
        Ok(Entry {
            name: self.name.copy(alloc)?,
            by: self.by.copy(alloc)?,
        })
    }
}

/// Entries in order, of which the last one of a name counts.
pub type Entries = Listed<Entry>;

// What the last entry of the name says.
fn entry_of<'a>(entries: &'a [Entry], name: &Text) -> Option<&'a Term>
    ensures { sub_of entries.now name.now ≡ unwrap_or (option_copied result) (var name.now) }
{
    for i in (0..entries.len()).rev() {
        let entry = &entries[i];
        if same_text(name, &entry.name) {
            return Some(&entry.by);
        }
    }
    None
}

// The free names of what stands for this name.
fn free_at(alloc: Global, entries: &[Entry], name: &Text) -> Result<Names, Memory>
    ensures { IfOk result (λ names. names ≡ free (sub_of entries.now name.now)) }
{
    match entry_of(entries, name) {
        Some(by) => free_names(alloc, by),
        None => one_name(alloc, name),
    }
}

// The free names of what stands for these names.
fn free_in(alloc: Global, entries: &[Entry], names: &[Text]) -> Result<Names, Memory>
    ensures { IfOk result (λ taken. taken ≡ union_all (frees (sub_of entries.now) names.now)) }
{
    let mut rest = Names::new(alloc);
    for i in (0..names.len()).rev() {
        let mut found = free_at(alloc, entries, &names[i])?;
        add_names(alloc, &mut found, rest.as_slice())?;
        rest = found;
    }
    Ok(rest)
}

// The name of a quantifier in the result.
fn name_in(alloc: Global, entries: &[Entry], name: &Text, body: &Term) -> Result<Text, Memory>
    ensures { IfOk result (λ made. made ≡ new_name (sub_of entries.now) name.now (without name.now (free body.now))) }
{
    let names = free_names(alloc, body)?;
    let others = all_but(alloc, name, names.as_slice())?;
    let taken = free_in(alloc, entries, others.as_slice())?;
    fresh_name(alloc, taken.as_slice(), name)
}

// Adds that a name becomes a variable of another name.
fn add_rename(alloc: Global, entries: &mut Vec<Entry>, name: &Text, to: &Text) -> Result<(), Memory>
    ensures { OnOk result (entries.new.items ≡ entries.old.items ++ renamed name.now to.now ∷ []) }
{
    entries.push(Entry {
        name: name.copy(alloc)?,
        by: Term::Var(to.copy(alloc)?),
    })?;
    Ok(())
}

fn variable(alloc: Global, name: &Text) -> Result<Term, Memory>
    ensures { IfOk result (λ made. made ≡ var name.now) }
{
    Ok(Term::Var(name.copy(alloc)?))
}

// What stands for a name, made anew.
fn put_name(alloc: Global, name: &Text, entries: &[Entry]) -> Result<Term, Memory>
    ensures { IfOk result (λ made. made ≡ sub_of entries.now name.now) }
{
    match entry_of(entries, name) {
        Some(by) => by.copy(alloc),
        None => variable(alloc, name),
    }
}

// Under a quantifier: its name in the result, and the entry of its name.
fn open_scope(
    alloc: Global,
    entries: &mut Vec<Entry>,
    name: &Text,
    body: &Term,
) -> Result<Text, Memory>
    ensures name { IfOk result (λ to. to ≡ new_name (sub_of entries.old.items) name.now (without name.now (free body.now))) }
    ensures entry { IfOk result (λ to. entries.new.items ≡ entries.old.items ++ renamed name.now to ∷ []) }
{
    let to = name_in(alloc, entries.as_slice(), name, body)?;
    add_rename(alloc, entries, name, &to)?;
    Ok(to)
}

fn close_scope(entries: &mut Vec<Entry>)
    ensures { (es : List Entry) → (e : Entry) → entries.old.items ≡ es ++ e ∷ [] → entries.new.items ≡ es }
{
    let _ = entries.pop();
}

fn all_of(alloc: Global, name: Text, low: Term, high: Term, body: Term) -> Result<Term, Memory>
    ensures { IfOk result (λ made. made ≡ quantify for_all name low high body) }
{
    Ok(Term::All(
        name,
        Boxed::new(alloc, low)?,
        Boxed::new(alloc, high)?,
        Boxed::new(alloc, body)?,
    ))
}

fn some_of(alloc: Global, name: Text, low: Term, high: Term, body: Term) -> Result<Term, Memory>
    ensures { IfOk result (λ made. made ≡ quantify exists name low high body) }
{
    Ok(Term::Some(
        name,
        Boxed::new(alloc, low)?,
        Boxed::new(alloc, high)?,
        Boxed::new(alloc, body)?,
    ))
}

// Replaces every free name by what stands for it.
fn replace(alloc: Global, term: &Term, entries: &mut Vec<Entry>) -> Result<Term, Memory>
    ensures made { IfOk result (λ made. made ≡ put term.now (sub_of entries.old.items)) }
    ensures kept { OnOk result (entries.new.items ≡ entries.old.items) }
{
    match term {
        Term::Int(value) => Ok(Term::Int(*value)),
        Term::Truth(value) => Ok(Term::Truth(*value)),
        Term::Var(name) => put_name(alloc, name, entries.as_slice()),
        Term::Op(oper, terms) => {
            let mut made = Items::new(alloc);
            for part in terms.as_slice() {
                made.push(replace(alloc, part, entries)?)?;
            }
            Ok(Term::Op(*oper, made))
        }
        Term::All(name, low, high, body) => {
            let new_low = replace(alloc, low.get(), entries)?;
            let new_high = replace(alloc, high.get(), entries)?;
            let to = open_scope(alloc, entries, name, body.get())?;
            let new_body = replace(alloc, body.get(), entries)?;
            close_scope(entries);
            all_of(alloc, to, new_low, new_high, new_body)
        }
        Term::Some(name, low, high, body) => {
            let new_low = replace(alloc, low.get(), entries)?;
            let new_high = replace(alloc, high.get(), entries)?;
            let to = open_scope(alloc, entries, name, body.get())?;
            let new_body = replace(alloc, body.get(), entries)?;
            close_scope(entries);
            some_of(alloc, to, new_low, new_high, new_body)
        }
    }
}

// The entries, with what stands for each name in its normal form.
fn normal_of(alloc: Global, entries: &[Entry]) -> Result<Vec<Entry>, Memory>
    ensures { IfOk result (λ made. made.items ≡ normal_entries entries.now) }
{
    let mut made = Vec::new(alloc);
    for entry in entries {
        made.push(Entry {
            name: entry.name.copy(alloc)?,
            by: replace(alloc, &entry.by, &mut Vec::new(alloc))?,
        })?;
    }
    Ok(made)
}

/// The term with the free occurrences of all names of entries replaced at once, and nothing
/// captured. In the result each quantifier, taken from outside in, binds its name without any `'`
/// at its end, followed by as few as keep it apart from every other name that is free in its body.
pub fn put_entries(alloc: Global, term: &Term, entries: &Entries) -> Result<Term, Memory>
    ensures { IfOk result (λ made. made ≡ put_all term.now entries.now) }
{
    let mut normal = normal_of(alloc, entries.as_slice())?;
    replace(alloc, term, &mut normal)
}

/// The term with the free occurrences of one name replaced, as `put_entries` replaces several.
pub fn subst(alloc: Global, term: &Term, name: &Text, by: &Term) -> Result<Term, Memory>
    ensures { IfOk result (λ made. made ≡ subst_of term.now name.now by.now) }
{
    let by = replace(alloc, by, &mut Vec::new(alloc))?;
    let mut entries = Vec::new(alloc);
    entries.push(Entry {
        name: name.copy(alloc)?,
        by,
    })?;
    replace(alloc, term, &mut entries)
}
