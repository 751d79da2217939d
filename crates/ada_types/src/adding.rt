// Whole declarations: what each adds, or its first fault.
ghost use Rattle.std.specs.Prelude.{◌≡◌, ◌∷◌, [], ◌++◌, IfOk, length, not};
ghost use Rattle.ada_tree.specs.Nodes.{kind_of, text_of, kids_of};
ghost use Rattle.ada_names.specs.Places.{◌▸◌};
ghost use Rattle.static_values.specs.Judging.{asks, Gives, ◌⊕◌};
ghost use Rattle.static_values.specs.Entities as spec;
ghost use Rattle.type_definitions.specs.Definitions as def;
ghost use Rattle.ada_types.specs.SortLists as lists;
ghost use Rattle.ada_types.specs.Declarations as decl;

use crate::declarations::{
    Addition, Constrained, Declares, Initial, Spot, beside, constant, constant_initial,
    declare_ids, number, object_by, of_mark, ranged, value, variable_initial,
};
use crate::sort_names::{expanded, is_packaged, is_shown};
use ada_names::kid;
use ada_tree::{Kind, Lookup, Node};
use base_kit::{Code, Copied, Memory, Names, Path, Stop, Text};
use static_values::{Entities, Entity, Shape, Subtype, Use, ask, expression, mark, value_of};
use std::alloc::Global;
use term_core::{Sort, SortEntry};
use type_definitions::{Defined, defined_sort, definition, is_too_large, members, sort_of, whole};

/// A declaration at its path in a document.
#[derive(Clone, Copy)]
pub struct Declaration<'a> {
    pub doc: &'a Node,
    pub at: &'a Path,
    pub node: &'a Node,
}

/// That nothing is added.
pub fn nothing(alloc: Global) -> Addition
    ensures { result ≡ decl.added [] None }
{
    Addition {
        entities: Entities::new(alloc),
        entry: None,
        completes: None,
    }
}

// What the names of a declaration declare, and no entry.
fn named<N: Lookup>(
    alloc: Global,
    names: &N,
    at: &Path,
    what: Declares,
    ids: &Node,
) -> Result<Addition, Stop>
    ensures { Gives
        (decl.ids_faults (N.sight names.now) (decl.beside at.now) (kids_of ids.now))
        (decl.named_as (N.sight names.now) at.now what (kids_of ids.now))
        result }
{
    let after = beside(alloc, at)?;
    let none = Entities::new(alloc);
    let entities = declare_ids(alloc, names, &after, what, ids.kids.as_slice(), none)?;
    Ok(Addition {
        entities,
        entry: None,
        completes: None,
    })
}

// The mark and the range of an object.
fn object_type<N: Lookup>(
    alloc: Global,
    names: &N,
    entities: &Entities,
    at: &Path,
    marked: &Node,
    range: &Node,
) -> Result<Constrained, Stop>
    ensures { Gives
        (decl.object_type_faults (spec.world (N.sight names.now) entities.now) at.now marked.now
        range.now)
        (decl.object_type (spec.world (N.sight names.now) entities.now) at.now marked.now range.now)
        result }
{
    let mark = Spot {
        at: &kid(alloc, at, 1)?,
        node: marked,
    };
    let limits = Spot {
        at: &kid(alloc, at, 2)?,
        node: range,
    };
    ranged(alloc, names, entities, mark, limits)
}

// The names of a declaration at this path, and their initial expression.
#[derive(Clone, Copy)]
struct Objects<'a> {
    at: &'a Path,
    ids: &'a Node,
    value: &'a Node,
}

// Variables: their initial expression and their names.
#[tactic(auto, using(static_values::proofs::Firsts::first_stays, static_values::proofs::Firsts::first_after))]
fn object_with<N: Lookup>(
    alloc: Global,
    names: &N,
    entities: &Entities,
    initial: Initial,
    own: Objects<'_>,
) -> Result<Addition, Stop>
    ensures { Gives
        (decl.value_faults (spec.world (N.sight names.now) entities.now) initial own.entry.at.now
        own.entry.value.now
        ⊕ decl.ids_faults (N.sight names.now) (decl.beside own.entry.at.now)
        (kids_of own.entry.ids.now))
        (decl.named_as (N.sight names.now) own.entry.at.now (decl.object_by initial.made)
        (kids_of own.entry.ids.now))
        result }
{
    value(alloc, names, entities, own.at, initial, own.value)?;
    named(alloc, names, own.at, object_by(initial.made), own.ids)
}

#[tactic(auto, using(static_values::proofs::Firsts::first_stays, static_values::proofs::Firsts::first_after))]
fn object<N: Lookup>(
    alloc: Global,
    names: &N,
    entities: &Entities,
    packaged: bool,
    at: &Path,
    node: &Node,
) -> Result<Addition, Stop>
    ensures { Gives
        (decl.object_faults (spec.world (N.sight names.now) entities.now) packaged at.now
        (kids_of node.now))
        (decl.object_in (spec.world (N.sight names.now) entities.now) at.now (kids_of node.now))
        result }
{
    let [ids, marked, range, value] = node.kids.as_slice() else {
        return Ok(nothing(alloc));
    };
    let made = object_type(alloc, names, entities, at, marked, range)?;
    let initial = variable_initial(packaged, made, ids.kids.as_slice(), value);
    let own = Objects { at, ids, value };
    object_with(alloc, names, entities, initial, own)
}

// Constants: their value and their names.
#[tactic(auto, using(static_values::proofs::Firsts::first_stays, static_values::proofs::Firsts::first_after))]
fn constant_with<N: Lookup>(
    alloc: Global,
    names: &N,
    entities: &Entities,
    initial: Initial,
    own: Objects<'_>,
) -> Result<Addition, Stop>
    ensures { Gives
        (decl.value_faults (spec.world (N.sight names.now) entities.now) initial own.entry.at.now
        own.entry.value.now
        ⊕ decl.ids_faults (N.sight names.now) (decl.beside own.entry.at.now)
        (kids_of own.entry.ids.now))
        (decl.named_as (N.sight names.now) own.entry.at.now
        (decl.constant_by initial.made
        (decl.value_in (spec.world (N.sight names.now) entities.now) own.entry.at.now
        own.entry.value.now))
        (kids_of own.entry.ids.now))
        result }
{
    let value = value(alloc, names, entities, own.at, initial, own.value)?;
    named(alloc, names, own.at, constant(initial.made, value), own.ids)
}

#[tactic(auto, using(static_values::proofs::Firsts::first_stays, static_values::proofs::Firsts::first_after))]
fn constant_object<N: Lookup>(
    alloc: Global,
    names: &N,
    entities: &Entities,
    packaged: bool,
    at: &Path,
    node: &Node,
) -> Result<Addition, Stop>
    ensures { Gives
        (decl.constant_faults (spec.world (N.sight names.now) entities.now) packaged at.now
        (kids_of node.now))
        (decl.constant_in (spec.world (N.sight names.now) entities.now) at.now (kids_of node.now))
        result }
{
    let [ids, marked, range, value] = node.kids.as_slice() else {
        return Ok(nothing(alloc));
    };
    let made = object_type(alloc, names, entities, at, marked, range)?;
    let initial = constant_initial(packaged, made, ids.kids.as_slice(), value);
    let own = Objects { at, ids, value };
    constant_with(alloc, names, entities, initial, own)
}

#[tactic(auto, using(static_values::proofs::Firsts::first_stays, static_values::proofs::Firsts::first_after))]
fn named_number<N: Lookup>(
    alloc: Global,
    names: &N,
    entities: &Entities,
    at: &Path,
    node: &Node,
) -> Result<Addition, Stop>
    ensures { Gives
        (decl.named_number_faults (spec.world (N.sight names.now) entities.now) at.now
        (kids_of node.now))
        (decl.named_number_in (spec.world (N.sight names.now) entities.now) at.now
        (kids_of node.now))
        result }
{
    let [ids, number] = node.kids.as_slice() else {
        return Ok(nothing(alloc));
    };
    let below = kid(alloc, at, 1)?;
    let meaning = expression(alloc, names, entities, &below, Use::Static, number)?;
    ask(alloc, at, &[(Code::F09, !meaning.base.is_integer())])?;
    named(alloc, names, at, Declares::Number(value_of(&meaning)), ids)
}

fn exception<N: Lookup>(
    alloc: Global,
    names: &N,
    entities: &Entities,
    at: &Path,
    node: &Node,
) -> Result<Addition, Stop>
    ensures { Gives
        (decl.exception_faults (spec.world (N.sight names.now) entities.now) at.now
        (kids_of node.now))
        (decl.exception_in (spec.world (N.sight names.now) entities.now) at.now
        (kids_of node.now))
        result }
{
    match node.kids.as_slice() {
        [ids] => named(alloc, names, at, Declares::Exception, ids),
        _ => Ok(nothing(alloc)),
    }
}

#[tactic(auto, using(static_values::proofs::Firsts::first_stays, static_values::proofs::Firsts::first_after))]
fn formal<N: Lookup>(
    alloc: Global,
    names: &N,
    entities: &Entities,
    at: &Path,
    node: &Node,
) -> Result<Addition, Stop>
    ensures { Gives
        (decl.formal_faults (spec.world (N.sight names.now) entities.now) at.now
        (kids_of node.now))
        (decl.formal_in (spec.world (N.sight names.now) entities.now) at.now (kids_of node.now))
        result }
{
    let [ids, marked] = node.kids.as_slice() else {
        return Ok(nothing(alloc));
    };
    let of = mark(alloc, names, entities, &kid(alloc, at, 1)?, marked)?;
    named(alloc, names, at, object_by(of_mark(of)), ids)
}

// The number of an entry. Past 32 bits there is none.
fn next_entry(known: &[SortEntry]) -> Result<u32, Memory>
    ensures { IfOk result (λ n. n ≡ length known.now) }
{
    match u32::try_from(known.len()) {
        Ok(number) => Ok(number),
        Err(_) => Err(Memory),
    }
}

fn base_at(known: &[SortEntry], entry: u32) -> u32
    ensures { result ≡ decl.base_at known.now entry }
{
    match known.get(entry as usize) {
        Some(entry) => entry.base,
        None => 0,
    }
}

fn subtype_sort(alloc: Global, known: &[SortEntry], made: Constrained) -> Result<Sort, Memory>
    ensures { IfOk result (λ sort. sort ≡ decl.subtype_sort known.now made) }
{
    if made.class.is_private() {
        Ok(whole())
    } else {
        sort_of(alloc, known, made.subtype)
    }
}

fn subtype_base(known: &[SortEntry], made: Constrained, number: u32) -> u32
    requires { number ≡ length known.now }
    ensures { result ≡ decl.subtype_base known.now made }
{
    if made.class.is_private() {
        number
    } else {
        base_at(known, made.subtype.entry)
    }
}

// What is kept of a subtype with this entry.
fn subtype_by(made: Constrained, number: u32) -> Entity
    ensures { result ≡ decl.subtype_by made number }
{
    if made.class.is_private() {
        return Entity::PrivateSubtype(made.subtype.base, number);
    }
    Entity::Subtype(Subtype {
        entry: number,
        ..made.subtype
    })
}

fn subtype_entry(
    alloc: Global,
    known: &[SortEntry],
    own: Declaration<'_>,
    made: Constrained,
) -> Result<SortEntry, Memory>
    ensures { IfOk result (λ e.
        e ≡ decl.subtype_entry known.now own.entry.doc.now own.entry.at.now
        (text_of own.entry.node.now) made) }
{
    let number = next_entry(known)?;
    Ok(SortEntry {
        name: expanded(alloc, own.doc, own.at, &own.node.text)?,
        sort: subtype_sort(alloc, known, made)?,
        seen: false,
        parts: Names::new(alloc),
        base: subtype_base(known, made, number),
    })
}

fn added_subtype(
    alloc: Global,
    known: &[SortEntry],
    own: Declaration<'_>,
    made: Constrained,
    id: u32,
) -> Result<Addition, Memory>
    ensures { IfOk result (λ a.
        a ≡ decl.subtype_with known.now own.entry.doc.now own.entry.at.now
        (text_of own.entry.node.now) made id) }
{
    let entry = subtype_entry(alloc, known, own, made)?;
    let mut entities = Entities::new(alloc);
    entities.declare(id, subtype_by(made, next_entry(known)?))?;
    Ok(Addition {
        entities,
        entry: Some(entry),
        completes: None,
    })
}

// A private type before its full type.
fn private_type<N: Lookup>(
    alloc: Global,
    names: &N,
    entities: &Entities,
    at: &Path,
    node: &Node,
) -> Result<Addition, Stop>
    ensures { Gives
        (decl.private_faults (spec.world (N.sight names.now) entities.now) at.now (text_of node.now))
        (decl.private_in (spec.world (N.sight names.now) entities.now) at.now (text_of node.now))
        result }
{
    let after = beside(alloc, at)?;
    let id = number(alloc, names, &after, &node.text)?;
    let subtype = Subtype {
        base: id,
        entry: 0,
        low: 0,
        high: 0,
    };
    let mut own = Entities::new(alloc);
    own.declare(id, Entity::Type(subtype, Shape::Private))?;
    Ok(Addition {
        entities: own,
        entry: None,
        completes: None,
    })
}

// A subtype under its number.
fn numbered_subtype<N: Lookup>(
    alloc: Global,
    names: &N,
    known: &[SortEntry],
    own: Declaration<'_>,
    made: Constrained,
) -> Result<Addition, Stop>
    ensures { Gives
        (decl.number_faults (N.sight names.now) (decl.beside own.entry.at.now)
        (text_of own.entry.node.now))
        (decl.subtype_with known.now own.entry.doc.now own.entry.at.now
        (text_of own.entry.node.now) made
        (decl.number_of_name (N.sight names.now) (decl.beside own.entry.at.now)
        (text_of own.entry.node.now)))
        result }
{
    let after = beside(alloc, own.at)?;
    let id = number(alloc, names, &after, &own.node.text)?;
    Ok(added_subtype(alloc, known, own, made, id)?)
}

// The mark and the range of a subtype.
fn subtype_type<N: Lookup>(
    alloc: Global,
    names: &N,
    entities: &Entities,
    at: &Path,
    marked: &Node,
    range: &Node,
) -> Result<Constrained, Stop>
    ensures { Gives
        (decl.ranged_faults (spec.world (N.sight names.now) entities.now) (at.now ▸ 0)
        (at.now ▸ 1) marked.now range.now)
        (decl.ranged_with (spec.world (N.sight names.now) entities.now) (at.now ▸ 0)
        (at.now ▸ 1) marked.now range.now)
        result }
{
    let mark = Spot {
        at: &kid(alloc, at, 0)?,
        node: marked,
    };
    let limits = Spot {
        at: &kid(alloc, at, 1)?,
        node: range,
    };
    ranged(alloc, names, entities, mark, limits)
}

#[tactic(auto, using(static_values::proofs::Firsts::first_stays, static_values::proofs::Firsts::first_after))]
fn subtype<N: Lookup>(
    alloc: Global,
    names: &N,
    entities: &Entities,
    known: &[SortEntry],
    own: Declaration<'_>,
) -> Result<Addition, Stop>
    ensures { Gives
        (decl.subtype_faults (spec.world (N.sight names.now) entities.now) own.entry.at.now
        (text_of own.entry.node.now) (kids_of own.entry.node.now))
        (decl.subtype_in (spec.world (N.sight names.now) entities.now) known.now
        own.entry.doc.now own.entry.at.now (text_of own.entry.node.now)
        (kids_of own.entry.node.now))
        result }
{
    let [marked, range] = own.node.kids.as_slice() else {
        return Ok(nothing(alloc));
    };
    let made = subtype_type(alloc, names, entities, own.at, marked, range)?;
    numbered_subtype(alloc, names, known, own, made)
}

// The subtype of all values of a type.
fn first_subtype(id: u32, entry: u32, made: &Defined) -> Subtype
    ensures { result ≡ decl.first_subtype id entry made.now }
{
    let low = made.low;
    let high = made.high;
    Subtype {
        base: id,
        entry,
        low,
        high,
    }
}

// The names of a record's components.
fn part_names(alloc: Global, shape: &Shape) -> Result<Names, Memory>
    ensures { IfOk result (λ names. names ≡ def.part_names shape.now) }
{
    let mut names = Names::new(alloc);
    if let Shape::Record(components) = shape {
        for component in components.as_slice() {
            names.push(component.name.copy(alloc)?)?;
        }
    }
    Ok(names)
}

fn type_entry(
    alloc: Global,
    known: &[SortEntry],
    own: Declaration<'_>,
    made: &Defined,
) -> Result<SortEntry, Memory>
    ensures { IfOk result (λ e.
        e ≡ decl.type_entry known.now own.entry.doc.now own.entry.at.now
        (text_of own.entry.node.now) made.now) }
{
    let number = next_entry(known)?;
    Ok(SortEntry {
        name: expanded(alloc, own.doc, own.at, &own.node.text)?,
        sort: defined_sort(alloc, known, made, number)?,
        seen: is_shown(own.doc, own.at),
        parts: part_names(alloc, &made.shape)?,
        base: number,
    })
}

// The literals of an enumeration.
fn literals(node: &Node) -> &[Node]
    ensures { result.now ≡ decl.literals_of node.now }
{
    match node.kind {
        Kind::Enum => members(node),
        _ => &[],
    }
}

// The type definition, where it is no larger than may be.
#[tactic(auto, using(static_values::proofs::Firsts::first_stays, static_values::proofs::Firsts::first_after), unfolding(crate::specs::Declarations::sized_faults))]
fn sized<N: Lookup>(
    alloc: Global,
    names: &N,
    entities: &Entities,
    known: &[SortEntry],
    at: &Path,
    node: &Node,
) -> Result<Defined, Stop>
    ensures { Gives
        (decl.sized_faults (spec.world (N.sight names.now) entities.now) known.now at.now
        node.now)
        (def.definition_in (spec.world (N.sight names.now) entities.now) (at.now ▸ 0) node.now)
        result }
{
    let made = definition(alloc, names, entities, &kid(alloc, at, 0)?, node)?;
    ask(alloc, at, &[(Code::F11, is_too_large(known, &made.shape))])?;
    Ok(made)
}

// The private type that a type of this number completes.
fn private_of(entities: &Entities, id: u32) -> Option<u32>
    ensures { result ≡ decl.private_of entities.now id }
{
    match entities.get(id) {
        Some(Entity::Type(_, Shape::Private)) => Some(id),
        _ => None,
    }
}

// The names of a type declaration, which are seen from the place after it.
#[derive(Clone, Copy)]
struct TypeNames<'a> {
    after: &'a Path,
    text: &'a Text,
    literals: &'a [Node],
}

// A type of this number and with this entry, and its literals.
fn numbered<N: Lookup>(
    alloc: Global,
    names: &N,
    own: TypeNames<'_>,
    id: u32,
    entry: u32,
    made: Defined,
) -> Result<Entities, Stop>
    ensures { Gives
        (decl.ids_faults (N.sight names.now) own.entry.after.now own.entry.literals.now)
        (decl.type_entities (N.sight names.now) own.entry.after.now id entry made
        own.entry.literals.now)
        result }
{
    let subtype = first_subtype(id, entry, &made);
    let what = Declares::Literal(subtype);
    let mut entities = Entities::new(alloc);
    entities.declare(id, Entity::Type(subtype, made.shape))?;
    declare_ids(alloc, names, own.after, what, own.literals, entities)
}

// A type with this entry and its literals, under their numbers.
#[tactic(auto, using(static_values::proofs::Firsts::first_stays, static_values::proofs::Firsts::first_after))]
fn under_numbers<N: Lookup>(
    alloc: Global,
    names: &N,
    entities: &Entities,
    own: TypeNames<'_>,
    made: Defined,
    entry: SortEntry,
) -> Result<Addition, Stop>
    ensures { Gives
        (decl.number_faults (N.sight names.now) own.entry.after.now own.entry.text.now
        ⊕ decl.ids_faults (N.sight names.now) own.entry.after.now own.entry.literals.now)
        (decl.type_with entry
        (decl.type_entities (N.sight names.now) own.entry.after.now
        (decl.number_of_name (N.sight names.now) own.entry.after.now own.entry.text.now)
        entry.base made own.entry.literals.now)
        (decl.private_of entities.now
        (decl.number_of_name (N.sight names.now) own.entry.after.now own.entry.text.now)))
        result }
{
    let id = number(alloc, names, own.after, own.text)?;
    let declared = numbered(alloc, names, own, id, entry.base, made)?;
    Ok(Addition {
        entities: declared,
        entry: Some(entry),
        completes: private_of(entities, id),
    })
}

#[tactic(auto, using(static_values::proofs::Firsts::first_stays, static_values::proofs::Firsts::first_after))]
fn type_declaration<N: Lookup>(
    alloc: Global,
    names: &N,
    entities: &Entities,
    known: &[SortEntry],
    own: Declaration<'_>,
) -> Result<Addition, Stop>
    ensures { Gives
        (decl.type_faults (spec.world (N.sight names.now) entities.now) known.now
        own.entry.doc.now own.entry.at.now (text_of own.entry.node.now)
        (kids_of own.entry.node.now))
        (decl.type_in (spec.world (N.sight names.now) entities.now) known.now
        own.entry.doc.now own.entry.at.now (text_of own.entry.node.now)
        (kids_of own.entry.node.now))
        result }
{
    let [defining] = own.node.kids.as_slice() else {
        return Ok(nothing(alloc));
    };
    let made = sized(alloc, names, entities, known, own.at, defining)?;
    let entry = type_entry(alloc, known, own, &made)?;
    let after = beside(alloc, own.at)?;
    let own = TypeNames {
        after: &after,
        text: &own.node.text,
        literals: literals(defining),
    };
    under_numbers(alloc, names, entities, own, made, entry)
}

/// What a declaration adds to the types, given the list of type names so far.
pub fn addition<N: Lookup>(
    alloc: Global,
    names: &N,
    entities: &Entities,
    known: &[SortEntry],
    own: Declaration<'_>,
) -> Result<Addition, Stop>
    ensures { Gives
        (decl.faults_of (spec.world (N.sight names.now) entities.now) known.now
        own.entry.doc.now own.entry.at.now (kind_of own.entry.node.now)
        (text_of own.entry.node.now) (kids_of own.entry.node.now))
        (decl.addition_of (spec.world (N.sight names.now) entities.now) known.now
        own.entry.doc.now own.entry.at.now (kind_of own.entry.node.now)
        (text_of own.entry.node.now) (kids_of own.entry.node.now))
        result }
{
    let Declaration { doc, at, node } = own;
    match node.kind {
        Kind::TypeDecl => type_declaration(alloc, names, entities, known, own),
        Kind::Private => private_type(alloc, names, entities, at, node),
        Kind::Subtype => subtype(alloc, names, entities, known, own),
        Kind::Obj => object(alloc, names, entities, is_packaged(doc, at), at, node),
        Kind::Const => constant_object(alloc, names, entities, is_packaged(doc, at), at, node),
        Kind::Formal => formal(alloc, names, entities, at, node),
        Kind::Num => named_number(alloc, names, entities, at, node),
        Kind::Exc => exception(alloc, names, entities, at, node),
        _ => Ok(nothing(alloc)),
    }
}
