// Declarations: what each adds, or its first fault.
ghost use Rattle.std.specs.Prelude.{◌≡◌, ◌∷◌, [], ◌++◌, IfOk, OnErr, length, pos, min, ◌-◌, ◌^◌};
ghost use Rattle.std.specs.Option.{option_map_or};
ghost use Rattle.ada_tree.specs.Nodes.{kind_of, text_of, kids_of};
ghost use Rattle.ada_tree.specs.Sights.{parts_of};
ghost use Rattle.ada_names.specs.Places.{◌▸◌};
ghost use Rattle.static_values.specs.Judging.{asks, Gives, Leads};
ghost use Rattle.static_values.specs.Entities as spec;
ghost use Rattle.static_values.specs.Expressions.{sight_faults};
ghost use Rattle.type_definitions.specs.Definitions as def;
ghost use Rattle.ada_types.specs.Declarations as decl;

use crate::limits::MOST_HELD;
use ada_names::kid;
use ada_tree::{Kids, Kind, Lookup, Node};
use base_kit::{Code, Copied, Memory, Names, Path, Stop, Text};
use static_values::{
    BaseType, Class, Entities, Entity, Named, Subtype, Use, ask, expression, mark, value_of,
};
use std::alloc::Global;
use term_core::SortEntry;
use type_definitions::{Limits, bounds};

/// The place after a declaration, from which its names are seen.
pub fn beside(alloc: Global, at: &Path) -> Result<Path, Memory>
    ensures { IfOk result (λ path. path ≡ decl.beside at.now) }
{
    let mut path = at.copy(alloc)?;
    let Some(last) = path.0.pop() else {
        return Ok(path);
    };
    let Some(next) = last.checked_add(1) else {
        return Err(Memory);
    };
    path.0.push(next)?;
    Ok(path)
}

fn name_node(alloc: Global, text: &Text) -> Result<Node, Memory>
    ensures { IfOk result (λ node. parts_of node ≡ text.now ∷ []) }
{
    Ok(Node {
        kind: Kind::Name,
        text: text.copy(alloc)?,
        notes: Names::new(alloc),
        kids: Kids::new(alloc),
    })
}

/// The number of a name that is declared, as it is seen from the place after its declaration.
pub fn number<N: Lookup>(alloc: Global, names: &N, after: &Path, text: &Text) -> Result<u32, Stop>
    ensures { Gives
        (sight_faults (N.sight names.now (text.now ∷ []) after.now) after.now)
        (decl.number_in (N.sight names.now (text.now ∷ []) after.now))
        result }
{
    let node = name_node(alloc, text)?;
    let id = names.find(&node, after)?;
    Ok(id.0)
}

/// What the names of a declaration declare.
#[derive(Clone, Copy)]
pub enum Declares {
    Object(Subtype),
    /// An object of the private type of this number, before the full type.
    PrivateObject(u32),
    Static(Subtype, i64),
    Number(i64),
    Exception,
    /// Each its position.
    Literal(Subtype),
}

/// What a declaration adds: what has which number, an entry of the list of type names, and the private type of
/// which it is the full type.
#[derive(Drop)]
pub struct Addition {
    pub entities: Entities,
    pub entry: Option<SortEntry>,
    pub completes: Option<u32>,
}

impl Declares {
    // What the name at this place among them declares.
    fn entity(self, place: i64) -> Entity
        ensures { (i : _) → place ≡ pos i → result ≡ decl.entity_by self i }
    {
        match self {
            Declares::Object(subtype) => Entity::Object(subtype),
            Declares::PrivateObject(id) => Entity::PrivateObject(id),
            Declares::Static(subtype, value) => Entity::Static(subtype, value),
            Declares::Number(value) => Entity::Number(value),
            Declares::Exception => Entity::Exception,
            Declares::Literal(subtype) => Entity::Static(subtype, place),
        }
    }
}

// The names of a declaration, after those that are there.
#[tactic(auto, using(static_values::proofs::Firsts::first_stays, static_values::proofs::Firsts::first_after))]
pub fn declare_ids<N: Lookup>(
    alloc: Global,
    names: &N,
    after: &Path,
    what: Declares,
    ids: &[Node],
    mut declared: Entities,
) -> Result<Entities, Stop>
    ensures { Gives
        (decl.ids_faults (N.sight names.now) after.now ids.now)
        (decl.declared_ids (N.sight names.now) after.now what 0 declared ids.now)
        result }
{
    for (place, id) in ids.iter().enumerate() {
        let id = number(alloc, names, after, &id.text)?;
        let Ok(place) = i64::try_from(place) else {
            return Err(Stop::Memory);
        };
        if declared.get(id).is_none() {
            declared.declare(id, what.entity(place))?;
        }
    }
    Ok(declared)
}

fn packaged_use(made: Constrained, initial: &Node) -> Use
    ensures { result ≡ decl.packaged_use made initial.now }
{
    match initial.kind {
        Kind::Aggr => Use::Read,
        _ => Use::Stored(made.subtype, made.base),
    }
}

// How the initial value of a variable of this subtype is used.
#[tactic(auto, unfolding(crate::specs::Declarations::variable_use))]
fn variable_use(packaged: bool, made: Constrained, initial: &Node) -> Use
    ensures { result ≡ decl.variable_use packaged made initial.now }
{
    if packaged {
        packaged_use(made, initial)
    } else {
        Use::Read
    }
}

// How the value of a constant of this subtype is used.
#[tactic(auto, unfolding(crate::specs::Declarations::constant_use))]
fn constant_use(packaged: bool, made: Constrained, initial: &Node) -> Use
    ensures { result ≡ decl.constant_use packaged made initial.now }
{
    if packaged {
        packaged_use(made, initial)
    } else {
        Use::Initial(made.subtype, made.base)
    }
}

/// An object of this subtype.
pub fn object_by(made: Constrained) -> Declares
    ensures { result ≡ decl.object_by made }
{
    if made.class.is_private() {
        Declares::PrivateObject(made.subtype.base)
    } else {
        Declares::Object(made.subtype)
    }
}

/// A constant of this subtype, and its value if it is static.
pub fn constant(made: Constrained, value: Option<i64>) -> Declares
    ensures { result ≡ decl.constant_by made value }
{
    match value {
        Some(value) => Declares::Static(made.subtype, value),
        None => object_by(made),
    }
}

fn narrowed(subtype: Subtype, limits: &Limits) -> Subtype
    ensures { result ≡ decl.narrowed subtype limits.now }
{
    Subtype {
        low: value_of(&limits.low),
        high: value_of(&limits.high),
        ..subtype
    }
}

fn lies_within(subtype: Subtype, limits: &Limits) -> bool
    ensures { result ≡ decl.lies_within subtype limits.now }
{
    let low = value_of(&limits.low);
    let high = value_of(&limits.high);
    low <= high && (subtype.low <= low && high <= subtype.high)
}

fn fits(base: BaseType, limits: &Limits) -> bool
    ensures { result ≡ decl.bounds_fit base limits.now }
{
    base.is_discrete() && (limits.low.base.fits(base) && limits.high.base.fits(base))
}

/// A subtype, its type, and what that is.
#[derive(Clone, Copy)]
pub struct Constrained {
    pub subtype: Subtype,
    pub base: BaseType,
    pub class: Class,
}

/// That of a mark.
pub fn of_mark(named: Named) -> Constrained
    ensures { result ≡ decl.of_mark named }
{
    Constrained {
        subtype: named.subtype(),
        base: named.base_type(),
        class: named.class(),
    }
}

// The subtype with the range that stands there.
#[tactic(auto, using(static_values::proofs::Firsts::first_stays, static_values::proofs::Firsts::first_after))]
fn limited<N: Lookup>(
    alloc: Global,
    names: &N,
    entities: &Entities,
    at: &Path,
    of: Constrained,
    node: &Node,
) -> Result<Subtype, Stop>
    ensures { Gives
        (decl.limits_faults (spec.world (N.sight names.now) entities.now) at.now of
        (kids_of node.now))
        (decl.narrowed of.subtype
        (def.bounds_of (spec.world (N.sight names.now) entities.now) at.now
        (kids_of node.now)))
        result }
{
    let limits = bounds(alloc, names, entities, at, node)?;
    let misfits = !fits(of.base, &limits);
    let outside = !lies_within(of.subtype, &limits);
    ask(alloc, at, &[(Code::F09, misfits), (Code::F11, outside)])?;
    Ok(narrowed(of.subtype, &limits))
}

// The subtype with the range that stands there, if one does.
fn range<N: Lookup>(
    alloc: Global,
    names: &N,
    entities: &Entities,
    at: &Path,
    of: Constrained,
    node: &Node,
) -> Result<Subtype, Stop>
    ensures { Gives
        (decl.range_faults (spec.world (N.sight names.now) entities.now) at.now of node.now)
        (decl.range_in (spec.world (N.sight names.now) entities.now) at.now of.subtype node.now)
        result }
{
    match node.kind {
        Kind::Range => limited(alloc, names, entities, at, of, node),
        _ => Ok(of.subtype),
    }
}

/// A node at its path.
#[derive(Clone, Copy)]
pub struct Spot<'a> {
    pub at: &'a Path,
    pub node: &'a Node,
}

/// The subtype that a mark and a range give.
#[tactic(auto, using(static_values::proofs::Firsts::first_stays, static_values::proofs::Firsts::first_after), unfolding(crate::specs::Declarations::ranged_faults))]
pub fn ranged<N: Lookup>(
    alloc: Global,
    names: &N,
    entities: &Entities,
    marked: Spot<'_>,
    limits: Spot<'_>,
) -> Result<Constrained, Stop>
    ensures { Gives
        (decl.ranged_faults (spec.world (N.sight names.now) entities.now) marked.entry.at.now
        limits.entry.at.now marked.entry.node.now limits.entry.node.now)
        (decl.ranged_with (spec.world (N.sight names.now) entities.now) marked.entry.at.now
        limits.entry.at.now marked.entry.node.now limits.entry.node.now)
        result }
{
    let of = of_mark(mark(alloc, names, entities, marked.at, marked.node)?);
    let subtype = range(alloc, names, entities, limits.at, of, limits.node)?;
    Ok(Constrained { subtype, ..of })
}

/// What is asked of an initial expression: how it is used, the subtype of its objects, and how many they are.
#[derive(Clone, Copy)]
pub struct Initial {
    pub usage: Use,
    pub made: Constrained,
    pub times: u64,
}

/// That of a variable.
pub fn variable_initial(packaged: bool, made: Constrained, ids: &[Node], value: &Node) -> Initial
    ensures { result ≡ decl.variable_initial packaged made ids.now value.now }
{
    Initial {
        usage: variable_use(packaged, made, value),
        made,
        times: ids.len() as u64,
    }
}

/// That of a constant.
pub fn constant_initial(packaged: bool, made: Constrained, ids: &[Node], value: &Node) -> Initial
    ensures { result ≡ decl.constant_initial packaged made ids.now value.now }
{
    Initial {
        usage: constant_use(packaged, made, value),
        made,
        times: ids.len() as u64,
    }
}

// All nodes of a tree.
fn nodes_in(node: &Node) -> u64
    ensures { result ≡ min (decl.nodes_in node.now) (2 ^ 64 - 1) }
{
    let mut count = 1u64;
    for kid in node.kids.as_slice() {
        count = count.saturating_add(nodes_in(kid));
    }
    count
}

// Whether so many names hold more of an initial expression than they may.
#[tactic(auto, using(crate::proofs::Holding::is_held))]
fn is_held_too_often(times: u64, node: &Node) -> bool
    ensures { result ≡ decl.is_held_too_often times node.now }
{
    if times <= 1 {
        return false;
    }
    times.saturating_mul(nodes_in(node)) > MOST_HELD
}

// The value that stands there, if one does.
#[tactic(auto, using(static_values::proofs::Firsts::first_stays, static_values::proofs::Firsts::first_after))]
pub fn value<N: Lookup>(
    alloc: Global,
    names: &N,
    entities: &Entities,
    at: &Path,
    initial: Initial,
    node: &Node,
) -> Result<Option<i64>, Stop>
    ensures { Gives
        (decl.value_faults (spec.world (N.sight names.now) entities.now) initial at.now node.now)
        (decl.value_in (spec.world (N.sight names.now) entities.now) at.now node.now)
        result }
{
    if node.kind == Kind::None {
        return Ok(None);
    }
    let below = kid(alloc, at, 3)?;
    let meaning = expression(alloc, names, entities, &below, initial.usage, node)?;
    let misfits = !meaning.base.fits(initial.made.base);
    let too_often = is_held_too_often(initial.times, node);
    ask(alloc, at, &[(Code::F09, misfits), (Code::F11, too_often)])?;
    Ok(meaning.value)
}
