// Type definitions: what each defines, or its first fault.
ghost use Rattle.std.specs.Prelude.{◌≡◌, ◌+◌, ◌∷◌, [], ◌++◌, pos, IfOk};
ghost use Rattle.ada_tree.specs.Nodes.{kind_of, kids_of};
ghost use Rattle.ada_tree.specs.Sights.{parts_of};
ghost use Rattle.static_values.specs.Judging.{asks, Gives};
ghost use Rattle.static_values.specs.Entities as spec;
ghost use Rattle.type_definitions.specs.Definitions as def;

use ada_names::kid;
use ada_tree::{Kind, Lookup, Node};
use base_kit::{Code, Copied, Listed, Memory, Path, Stop};
use static_values::{
    BaseType, Component, Entities, Index, Meaning, Named, Shape, Subtype, Use, ask, expression,
    mark, unknown, value_of,
};
use std::alloc::Global;

/// Components in order.
pub type Components = Listed<Component>;

/// What two bounds mean.
#[derive(Clone, Copy)]
pub struct Limits {
    pub low: Meaning,
    pub high: Meaning,
}

/// What a type is made of, and its range where it has one.
#[derive(Drop)]
pub struct Defined {
    pub shape: Shape,
    pub low: i64,
    pub high: i64,
}

impl Limits {
    fn is_null(&self) -> bool
        ensures { result ≡ def.is_null self.now }
    {
        value_of(&self.low) > value_of(&self.high)
    }

    // The type of two bounds that fit each other.
    fn index(&self) -> Index
        ensures { result ≡ def.span_index self.now }
    {
        let joined = self.low.base.joined(self.high.base);
        let base = if joined.is_universal() {
            BaseType::Integer(0)
        } else {
            joined
        };
        Index {
            base,
            low: value_of(&self.low),
            high: value_of(&self.high),
        }
    }
}

// The indexes that a mark stands for.
fn mark_index(named: Named) -> Index
    ensures { result ≡ def.mark_index named }
{
    let subtype = named.subtype();
    Index {
        base: named.base_type(),
        low: subtype.low,
        high: subtype.high,
    }
}

/// Two bounds, which must be static.
#[tactic(auto, using(static_values::proofs::Firsts::first_stays, static_values::proofs::Firsts::first_after))]
pub fn bounds<N: Lookup>(
    alloc: Global,
    names: &N,
    entities: &Entities,
    at: &Path,
    node: &Node,
) -> Result<Limits, Stop>
    ensures { Gives
        (def.bounds_faults (spec.world (N.sight names.now) entities.now) at.now
        (kids_of node.now))
        (def.bounds_of (spec.world (N.sight names.now) entities.now) at.now (kids_of node.now))
        result }
{
    match node.kids.as_slice() {
        [low, high] => {
            let below = kid(alloc, at, 0)?;
            let low = expression(alloc, names, entities, &below, Use::Static, low)?;
            let beside = kid(alloc, at, 1)?;
            let high = expression(alloc, names, entities, &beside, Use::Static, high)?;
            Ok(Limits { low, high })
        }
        _ => {
            ask(alloc, at, &[(Code::F08, true)])?;
            Ok(Limits {
                low: unknown(),
                high: unknown(),
            })
        }
    }
}

// The range of an integer type.
#[tactic(auto, using(static_values::proofs::Firsts::first_stays, static_values::proofs::Firsts::first_after))]
fn integers<N: Lookup>(
    alloc: Global,
    names: &N,
    entities: &Entities,
    at: &Path,
    node: &Node,
) -> Result<Defined, Stop>
    ensures { Gives
        (def.integer_faults (spec.world (N.sight names.now) entities.now) at.now
        (kids_of node.now))
        (def.integers
        (def.bounds_of (spec.world (N.sight names.now) entities.now) at.now
        (kids_of node.now)))
        result }
{
    let limits = bounds(alloc, names, entities, at, node)?;
    let fails = !(limits.low.base.is_integer() && limits.high.base.is_integer());
    ask(
        alloc,
        at,
        &[(Code::F09, fails), (Code::F11, limits.is_null())],
    )?;
    Ok(Defined {
        shape: Shape::Integer,
        low: value_of(&limits.low),
        high: value_of(&limits.high),
    })
}

#[tactic(auto, using(static_values::proofs::Firsts::first_stays, static_values::proofs::Firsts::first_after))]
fn span<N: Lookup>(
    alloc: Global,
    names: &N,
    entities: &Entities,
    at: &Path,
    node: &Node,
) -> Result<Index, Stop>
    ensures { Gives
        (def.span_faults (spec.world (N.sight names.now) entities.now) at.now (kids_of node.now))
        (def.span_index
        (def.bounds_of (spec.world (N.sight names.now) entities.now) at.now
        (kids_of node.now)))
        result }
{
    let limits = bounds(alloc, names, entities, at, node)?;
    let fails = !limits.low.base.agrees(limits.high.base);
    ask(
        alloc,
        at,
        &[(Code::F09, fails), (Code::F11, limits.is_null())],
    )?;
    Ok(limits.index())
}

#[tactic(auto, using(static_values::proofs::Firsts::first_stays, static_values::proofs::Firsts::first_after))]
fn range_of<N: Lookup>(
    alloc: Global,
    names: &N,
    entities: &Entities,
    at: &Path,
    node: &Node,
) -> Result<Index, Stop>
    ensures { Gives
        (def.range_of_faults (spec.world (N.sight names.now) entities.now) at.now
        (kids_of node.now))
        (def.mark_index Named.Valueless)
        result }
{
    if let [prefix] = node.kids.as_slice() {
        mark(alloc, names, entities, &kid(alloc, at, 0)?, prefix)?;
    }
    ask(alloc, at, &[(Code::F08, true)])?;
    Ok(mark_index(Named::Valueless))
}

// The index of an array.
fn index<N: Lookup>(
    alloc: Global,
    names: &N,
    entities: &Entities,
    at: &Path,
    node: &Node,
) -> Result<Index, Stop>
    ensures { Gives
        (def.index_faults (spec.world (N.sight names.now) entities.now) at.now node.now)
        (def.index_in (spec.world (N.sight names.now) entities.now) at.now node.now)
        result }
{
    match node.kind {
        Kind::Span => span(alloc, names, entities, at, node),
        Kind::RangeOf => range_of(alloc, names, entities, at, node),
        _ => Ok(mark_index(mark(alloc, names, entities, at, node)?)),
    }
}

// What has this shape, and no range.
fn shaped(shape: Shape) -> Defined
    ensures { result ≡ def.defined shape (pos 0) (pos 0) }
{
    Defined {
        shape,
        low: 0,
        high: 0,
    }
}

fn nothing() -> Defined
    ensures { result ≡ def.nothing_defined }
{
    shaped(Shape::Truth)
}

#[tactic(auto, using(static_values::proofs::Firsts::first_stays, static_values::proofs::Firsts::first_after))]
fn array<N: Lookup>(
    alloc: Global,
    names: &N,
    entities: &Entities,
    at: &Path,
    node: &Node,
) -> Result<Defined, Stop>
    ensures { Gives
        (def.array_faults (spec.world (N.sight names.now) entities.now) at.now
        (kids_of node.now))
        (def.array_in (spec.world (N.sight names.now) entities.now) at.now (kids_of node.now))
        result }
{
    let [indexes, element] = node.kids.as_slice() else {
        return Ok(nothing());
    };
    let index = index(alloc, names, entities, &kid(alloc, at, 0)?, indexes)?;
    let element = mark(alloc, names, entities, &kid(alloc, at, 1)?, element)?;
    ask(alloc, at, &[(Code::F09, !index.base.is_discrete())])?;
    Ok(shaped(Shape::Array(index, element.subtype())))
}

// Adds a component of this subtype for each name.
fn add_components(
    alloc: Global,
    subtype: Subtype,
    ids: &Node,
    mut components: Components,
) -> Result<Components, Memory>
    ensures { IfOk result (λ cs. cs ≡ components ++ def.components_of subtype (kids_of ids.now)) }
{
    for id in ids.kids.as_slice() {
        let name = id.text.copy(alloc)?;
        components.push(Component { name, subtype })?;
    }
    Ok(components)
}

fn component<N: Lookup>(
    alloc: Global,
    names: &N,
    entities: &Entities,
    at: &Path,
    node: &Node,
    components: Components,
) -> Result<Components, Stop>
    ensures { Gives
        (def.component_faults (spec.world (N.sight names.now) entities.now) at.now (kids_of node.now))
        (components
        ++ def.components_in (spec.world (N.sight names.now) entities.now) at.now (kids_of node.now))
        result }
{
    let [ids, of] = node.kids.as_slice() else {
        return Ok(components);
    };
    let named = mark(alloc, names, entities, &kid(alloc, at, 1)?, of)?;
    Ok(add_components(alloc, named.subtype(), ids, components)?)
}

// The components of a record.
#[tactic(auto, using(static_values::proofs::Firsts::first_stays, static_values::proofs::Firsts::first_after))]
fn components<N: Lookup>(
    alloc: Global,
    names: &N,
    entities: &Entities,
    at: &Path,
    node: &Node,
) -> Result<Components, Stop>
    ensures { Gives
        (def.components_faults (spec.world (N.sight names.now) entities.now) at.now 0
        (kids_of node.now))
        (def.all_of (spec.world (N.sight names.now) entities.now) at.now (kids_of node.now))
        result }
{
    let mut components = Components::new(alloc);
    for (number, member) in node.kids.as_slice().iter().enumerate() {
        let below = kid(alloc, at, number)?;
        components = component(alloc, names, entities, &below, member, components)?;
    }
    Ok(components)
}

#[tactic(auto, using(static_values::proofs::Firsts::first_stays, static_values::proofs::Firsts::first_after))]
fn record<N: Lookup>(
    alloc: Global,
    names: &N,
    entities: &Entities,
    at: &Path,
    node: &Node,
) -> Result<Defined, Stop>
    ensures { Gives
        (def.record_faults (spec.world (N.sight names.now) entities.now) at.now
        (kids_of node.now))
        (def.record_in (spec.world (N.sight names.now) entities.now) at.now (kids_of node.now))
        result }
{
    let [members] = node.kids.as_slice() else {
        return Ok(nothing());
    };
    let made = components(alloc, names, entities, &kid(alloc, at, 0)?, members)?;
    Ok(shaped(Shape::Record(made)))
}

/// The members of the one list that a node has.
pub fn members(node: &Node) -> &[Node]
    ensures { result.now ≡ def.members_of (kids_of node.now) }
{
    match node.kids.as_slice() {
        [ids] => ids.kids.as_slice(),
        _ => &[],
    }
}

fn enumeration(alloc: Global, at: &Path, node: &Node) -> Result<Defined, Stop>
    ensures { Gives
        (def.enumeration_faults at.now (kids_of node.now))
        (def.enumeration_in (kids_of node.now))
        result }
{
    let ids = members(node);
    ask(alloc, at, &[(Code::F08, ids.is_empty())])?;
    let Ok(count) = i64::try_from(ids.len()) else {
        return Err(Stop::Memory);
    };
    Ok(Defined {
        shape: Shape::Enumeration,
        low: 0,
        high: count - 1,
    })
}

/// What a type definition defines.
pub fn definition<N: Lookup>(
    alloc: Global,
    names: &N,
    entities: &Entities,
    at: &Path,
    node: &Node,
) -> Result<Defined, Stop>
    ensures { Gives
        (def.definition_faults (spec.world (N.sight names.now) entities.now) at.now node.now)
        (def.definition_in (spec.world (N.sight names.now) entities.now) at.now node.now)
        result }
{
    match node.kind {
        Kind::Enum => enumeration(alloc, at, node),
        Kind::Range => integers(alloc, names, entities, at, node),
        Kind::Arr => array(alloc, names, entities, at, node),
        Kind::Rec => record(alloc, names, entities, at, node),
        _ => Ok(nothing()),
    }
}
