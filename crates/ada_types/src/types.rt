// The types of a document, and static values.
ghost use Rattle.std.specs.Prelude.{◌≡◌, [], nat_eq, true, unwrap_or, IfOk, OnOk, OnErr};
ghost use Rattle.std.specs.Option.{option_copied};
ghost use Rattle.indexmap.specs.IndexMap.{insert_all};
ghost use Rattle.ada_tree.specs.Nodes.{node_at as found_at};
ghost use Rattle.static_values.specs.Judging.{Gives, Leads};
ghost use Rattle.static_values.specs.Syntax.{expr_of};
ghost use Rattle.static_values.specs.Rules.{value_of, in_base};
ghost use Rattle.static_values.specs.Entities.{world};
ghost use Rattle.static_values.specs.Expressions as walk;
ghost use Rattle.ada_types.specs.SortLists.{begun, fresh_for};
ghost use Rattle.ada_types.specs.Declarations as decl;

use crate::adding::{Declaration, addition, nothing};
use crate::declarations::Addition;
use crate::settling::{are_new, settled, waiting_for};
use crate::sort_names::{predefined_names, reached};
use ada_tree::{Doc, Lookup, Node};
use base_kit::{Code, Memory, Path, Stop};
use static_values::{Entities, Use, ask};
use std::alloc::Global;
use term_core::{SortEntry, SortNames};

/// What the declarations so far declare, and the list of type names so far. The list is empty before the
/// first declaration, and begins with the predefined types from then on.
#[derive(Drop)]
pub struct Types {
    pub entities: Entities,
    pub names: SortNames,
}

impl Types {
    /// Before the first declaration. It takes no memory.
    pub fn new(alloc: Global) -> Types
        ensures { result ≡ decl.no_types }
    {
        Types {
            entities: Entities::new(alloc),
            names: SortNames::new(alloc),
        }
    }

    /// The list of the types and subtypes added so far. It takes no memory.
    pub fn sort_names(&self) -> &SortNames
        ensures { result.now ≡ self.now.names }
    {
        &self.names
    }
}

/// The value of a static expression that stands at the path; else its first fault in post-order, and of one
/// node's faults the one of the least code. An enumeration literal has its position, FALSE is 0, TRUE is 1.
pub fn static_value<N: Lookup>(
    alloc: Global,
    types: &Types,
    names: &N,
    expr: &Node,
    at: &Path,
) -> Result<i64, Stop>
    ensures answer { Gives
        (walk.faults (world (N.sight names.now) types.now.entities) Use.Static at.now
        (expr_of expr.now))
        (value_of
        (walk.meaning (world (N.sight names.now) types.now.entities) at.now
        (expr_of expr.now)))
        result }
    ensures it_is_there { IfOk result (λ v.
        (walk.meaning (world (N.sight names.now) types.now.entities) at.now (expr_of expr.now)).value
        ≡ Some v) }
    ensures in_base { IfOk result (λ v. in_base v ≡ true) }
{
    static_values::static_value(alloc, &types.entities, names, expr, at)
}

// The predefined entries, where the list hasn't begun.
fn fresh_names(alloc: Global, names: &SortNames) -> Result<Option<SortNames>, Memory>
    ensures { IfOk result (λ fresh. fresh ≡ fresh_for names.now) }
{
    if names.as_slice().is_empty() {
        Ok(Some(predefined_names(alloc)?))
    } else {
        Ok(None)
    }
}

// The list, begun.
fn known<'a>(fresh: &'a Option<SortNames>, names: &'a SortNames) -> &'a [SortEntry]
    requires { fresh.now ≡ fresh_for names.now }
    ensures { result.now ≡ begun names.now }
{
    match fresh {
        Some(names) => names.as_slice(),
        None => names.as_slice(),
    }
}

// What the declaration at a path adds.
fn judged<N: Lookup>(
    alloc: Global,
    names: &N,
    entities: &Entities,
    known: &[SortEntry],
    doc: &Node,
    at: &Path,
) -> Result<Addition, Stop>
    ensures { Gives
        (decl.node_faults (world (N.sight names.now) entities.now) known.now doc.now at.now
        (found_at at.now doc.now))
        (decl.node_addition (world (N.sight names.now) entities.now) known.now doc.now at.now
        (found_at at.now doc.now))
        result }
{
    match reached(doc, at.0.as_slice()) {
        Some(node) => addition(alloc, names, entities, known, Declaration { doc, at, node }),
        None => {
            ask(alloc, at, &[(Code::F08, true)])?;
            Ok(nothing(alloc))
        }
    }
}

// The list that an entry is added to, where it isn't the one that is there.
#[tactic(auto, using(crate::proofs::Waiting::begins))]
fn list_before(
    alloc: Global,
    fresh: Option<SortNames>,
    names: &SortNames,
    entities: &Entities,
    addition: &Addition,
) -> Result<Option<SortNames>, Memory>
    requires { fresh ≡ fresh_for names.now }
    ensures { IfOk result (λ other.
        unwrap_or other names.now ≡ decl.names_before entities.now addition.now (begun names.now)) }
{
    let waiting = waiting_for(alloc, addition.completes, entities)?;
    if waiting.is_empty() {
        return Ok(fresh);
    }
    let Some(full) = &addition.entry else {
        return Ok(fresh);
    };
    match &fresh {
        Some(fresh) => Ok(Some(settled(alloc, fresh, full, waiting.as_slice())?)),
        None => Ok(Some(settled(alloc, names, full, waiting.as_slice())?)),
    }
}

// The addition with its entities, if all of them are new.
fn new_alone(alloc: Global, entities: &Entities, addition: Addition) -> Addition
    ensures entities { result.entities ≡ decl.only_new entities.now addition.entities }
    ensures entry { result.entry ≡ addition.entry }
{
    if are_new(entities, &addition.entities) {
        addition
    } else {
        Addition {
            entities: Entities::new(alloc),
            ..addition
        }
    }
}

// Adds the entry, to the other list if there is one.
fn add_entry(
    names: &mut SortNames,
    other: Option<SortNames>,
    entry: Option<SortEntry>,
) -> Result<(), Memory>
    requires fits { decl.MayStand (unwrap_or other names.old) entry }
    ensures ok { OnOk result (names.new ≡ decl.with_entry (unwrap_or other names.old) entry) }
    ensures err { OnErr result (names.new ≡ names.old) }
{
    match (other, entry) {
        (Some(mut other), Some(entry)) => {
            other.push(entry)?;
            *names = other;
        }
        (Some(other), None) => *names = other,
        (None, Some(entry)) => names.push(entry)?,
        (None, None) => {}
    }
    Ok(())
}

// Adds all, or nothing.
fn commit(
    entities: &mut Entities,
    names: &mut SortNames,
    other: Option<SortNames>,
    addition: Addition,
) -> Result<(), Memory>
    requires fits { decl.MayStand (unwrap_or other names.old) addition.entry }
    ensures entities { OnOk result (entities.new ≡ insert_all nat_eq entities.old addition.entities) }
    ensures names { OnOk result
        (names.new ≡ decl.with_entry (unwrap_or other names.old) addition.entry) }
    ensures old_entities { OnErr result (entities.new ≡ entities.old) }
    ensures old_names { OnErr result (names.new ≡ names.old) }
{
    let Addition {
        entities: mut added,
        entry,
        ..
    } = addition;
    entities.map.reserve(added.map.len())?;
    add_entry(names, other, entry)?;
    // There is room for all.
    entities.map.append(&mut added.map)?;
    Ok(())
}

/// Adds the declaration at a path of a document; else its first fault in post-order, and of one node's faults
/// the one of the least code. After an error the types are as before.
pub fn type_of_decl<N: Lookup>(
    alloc: Global,
    types: &mut Types,
    doc: &Doc,
    names: &N,
    at: &Path,
) -> Result<(), Stop>
    ensures adds { Leads
        (decl.decl_faults (N.sight names.now) types.old doc.now at.now)
        (decl.decl_after (N.sight names.now) types.old doc.now at.now)
        types.new
        result }
    ensures unchanged { OnErr result (types.new ≡ types.old) }
{
    type_of_node(alloc, types, &doc.root, names, at)
}

/// The same of any tree, as if it were a document.
pub fn type_of_node<N: Lookup>(
    alloc: Global,
    types: &mut Types,
    root: &Node,
    names: &N,
    at: &Path,
) -> Result<(), Stop>
    ensures adds { Leads
        (decl.decl_faults (N.sight names.now) types.old root.now at.now)
        (decl.decl_after (N.sight names.now) types.old root.now at.now)
        types.new
        result }
    ensures unchanged { OnErr result (types.new ≡ types.old) }
{
    let fresh = fresh_names(alloc, &types.names)?;
    let list = known(&fresh, &types.names);
    let addition = judged(alloc, names, &types.entities, list, root, at)?;
    let other = list_before(alloc, fresh, &types.names, &types.entities, &addition)?;
    let addition = new_alone(alloc, &types.entities, addition);
    commit(&mut types.entities, &mut types.names, other, addition)?;
    Ok(())
}
