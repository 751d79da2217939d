// What is declared so far, and what names stand for.
ghost use Rattle.std.specs.Prelude.{◌≡◌, ◌∷◌, [], nat_eq, true, OnOk};
ghost use Rattle.std.specs.Option.{option_copied};
ghost use Rattle.std.specs.Map.{lookup};
ghost use Rattle.indexmap.specs.IndexMap.{insert_entry};
ghost use Rattle.ada_tree.specs.Sights.{parts_of};
ghost use Rattle.ada_tree.specs.Nodes.{text_of};
ghost use Rattle.base_kit.specs.declared.fault.Code.TheVariants as code;
ghost use Rattle.static_values.specs.Judging.{Gives, asks};
ghost use Rattle.static_values.specs.Entities as spec;
ghost use Rattle.static_values.specs.Expressions as walk;

use crate::entity::{BaseType, Class, Entity, Named, PREDEFINED, Shape, Subtype};
use crate::judging::ask;
use crate::rules::meant;
use ada_names::kid;
use ada_tree::{Kind, Lookup, Node};
use base_kit::{Code, Memory, Path, Stop, Text};
use indexmap::IndexMap;
use std::alloc::Global;
use std::marker::Model;

/// What the declarations so far declare, each under its number. Contracts see the list.
#[derive(Drop)]
pub struct Entities {
    pub map: IndexMap<u32, Entity>,
}

impl Model for Entities {
    ghost use Rattle.std.specs.Coded.{codes};
    ghost use Rattle.std.specs.Prelude.{List, ℕ};
    ghost use Rattle.static_values.specs.declared.entity.Entity.{Entity as Kept};
    ghost use Rattle.static_values.specs.contracts.entity.Entity as kept;

    ghost Value = { List (ℕ × Kept) };

    ghost coded = { Prim.hlevel (codes, kept.the_row.coded) };

    ghost view = { λ e. e.map.entries };
}

fn class_of_shape(shape: &Shape) -> Class
    ensures { result ≡ spec.class_of_shape shape.now }
{
    match shape {
        Shape::Integer => Class::Integer,
        Shape::Enumeration => Class::Enumeration,
        Shape::Truth => Class::Truth,
        Shape::Array(index, _) => Class::Array(*index),
        Shape::Record(_) => Class::Record,
        Shape::Private => Class::Private,
    }
}

// What the predefined name of this number stands for.
fn predefined(id: u32) -> Option<Named>
    ensures { result ≡ spec.predefined id }
{
    match PREDEFINED.get(id as usize) {
        Some(named) => Some(*named),
        None => None,
    }
}

// The type that is kept.
fn mark_kept(entity: Option<&Entity>) -> Named
    ensures { result ≡ spec.mark_kept (option_copied entity.entry) }
{
    match entity {
        Some(Entity::Type(subtype, shape)) => Named::Mark(*subtype, class_of_shape(shape)),
        _ => Named::Unkept,
    }
}

// Whether what has a number may give it to this entity.
fn may_take(kept: Option<&Entity>, entity: &Entity) -> bool
    ensures { result ≡ spec.may_take (option_copied kept.entry) entity.now }
{
    match (kept, entity) {
        (None, _) => true,
        (Some(Entity::Type(_, Shape::Private)), Entity::Type(_, _)) => true,
        _ => false,
    }
}

impl Named {
    // An object of all values of a type.
    fn as_object(self) -> Named
        ensures { result ≡ spec.as_object self }
    {
        match self {
            Named::Mark(subtype, class) => Named::Object(subtype, class),
            _ => Named::Unkept,
        }
    }

    // A subtype of all values of a type, with an entry of its own.
    fn as_subtype(self, number: u32) -> Named
        ensures { result ≡ spec.as_subtype number self }
    {
        match self {
            Named::Mark(subtype, class) => Named::Mark(
                Subtype {
                    entry: number,
                    ..subtype
                },
                class,
            ),
            _ => Named::Unkept,
        }
    }
}

impl Entities {
    /// Where nothing is declared. It takes no memory.
    pub fn new(alloc: Global) -> Entities
        ensures { result ≡ [] }
    {
        Entities {
            map: IndexMap::new(alloc),
        }
    }

    /// What has this number.
    pub fn get(&self, id: u32) -> Option<&Entity>
        ensures { option_copied result ≡ lookup (nat_eq id) self.now }
    {
        self.map.get(&id)
    }

    /// Adds what has this number, in the place of what had it.
    pub fn declare(&mut self, id: u32, entity: Entity) -> Result<(), Memory>
        ensures { OnOk result (self.new ≡ insert_entry nat_eq self.old id entity) }
    {
        self.map.insert(id, entity)?;
        Ok(())
    }

    fn kept_class(&self, id: u32) -> Class
        ensures { result ≡ spec.class_kept (lookup (nat_eq id) self.now) }
    {
        match self.get(id) {
            Some(Entity::Type(_, Shape::Private)) => Class::Unknown,
            Some(Entity::Type(_, shape)) => class_of_shape(shape),
            _ => Class::Unknown,
        }
    }

    /// What the type of this number is.
    pub fn class(&self, id: u32) -> Class
        ensures { result ≡ spec.class_of self.now id }
    {
        match predefined(id) {
            Some(named) => named.class(),
            None => self.kept_class(id),
        }
    }

    // The type of this number.
    fn type_named(&self, id: u32) -> Named
        ensures { result ≡ spec.mark_of self.now id }
    {
        match predefined(id) {
            Some(named) => named,
            None => mark_kept(self.get(id)),
        }
    }

    /// Whether it can be kept under this number: nothing is, or it is the full type of what is.
    pub fn is_new(&self, id: u32, entity: &Entity) -> bool
        ensures { result ≡ spec.is_new self.now id entity.now }
    {
        predefined(id).is_none() && may_take(self.get(id), entity)
    }

    fn kept(&self, entity: Option<&Entity>) -> Named
        ensures { result ≡ spec.named_kept self.now (option_copied entity.entry) }
    {
        match entity {
            Some(Entity::Type(subtype, shape)) => Named::Mark(*subtype, class_of_shape(shape)),
            Some(Entity::Subtype(subtype)) => Named::Mark(*subtype, self.class(subtype.base)),
            Some(Entity::Object(subtype)) => Named::Object(*subtype, self.class(subtype.base)),
            Some(Entity::PrivateSubtype(id, number)) => self.type_named(*id).as_subtype(*number),
            Some(Entity::PrivateObject(id)) => self.type_named(*id).as_object(),
            Some(Entity::Static(subtype, value)) => {
                Named::Static(*subtype, self.class(subtype.base), *value)
            }
            Some(Entity::Number(value)) => Named::Number(*value),
            Some(Entity::Exception) => Named::Valueless,
            None => Named::Unkept,
        }
    }

    /// What the declaration of this number stands for.
    pub fn named(&self, id: u32) -> Named
        ensures { result ≡ spec.named_of self.now id }
    {
        match predefined(id) {
            Some(named) => named,
            None => self.kept(self.get(id)),
        }
    }
}

impl Named {
    fn is_object(self) -> bool
        ensures { result ≡ walk.is_object self }
    {
        match self {
            Named::Object(_, _) | Named::Static(_, _, _) | Named::Number(_) => true,
            _ => false,
        }
    }

    fn is_unkept(self) -> bool
        ensures { result ≡ walk.is_unkept self }
    {
        match self {
            Named::Unkept => true,
            _ => false,
        }
    }
}

/// What a name stands for, as a whole.
pub fn seen<N: Lookup>(
    names: &N,
    entities: &Entities,
    at: &Path,
    name: &Node,
) -> Result<Named, Stop>
    ensures { Gives
        (walk.sight_faults (N.sight names.now (parts_of name.now) at.now) at.now)
        (spec.stands_for entities.now (N.sight names.now (parts_of name.now) at.now))
        result }
{
    let id = names.find(name, at)?;
    Ok(entities.named(id.0))
}

// A component of the object that stands before the dot.
#[tactic(auto, using(crate::proofs::Firsts::first_stays, crate::proofs::Firsts::first_after), unfolding(crate::specs::Expressions::part_faults))]
fn part(
    alloc: Global,
    entities: &Entities,
    at: &Path,
    prefix: Named,
    text: &Text,
) -> Result<Named, Stop>
    ensures { Gives
        (walk.part_faults entities.now at.now text.now prefix)
        (walk.part entities.now text.now prefix)
        result }
{
    let below = kid(alloc, at, 0)?;
    ask(alloc, &below, &[(Code::F08, !prefix.is_object())])?;
    let selected = entities.selected(meant(prefix).base, text.as_bytes());
    ask(
        alloc,
        at,
        &[
            (Code::F08, selected.is_missing()),
            (Code::F09, selected.is_no_record()),
        ],
    )?;
    Ok(Named::Part(selected.base_type()))
}

// What stands after a dot.
fn after_dot<N: Lookup>(
    alloc: Global,
    names: &N,
    entities: &Entities,
    at: &Path,
    prefix: Named,
    name: &Node,
) -> Result<Named, Stop>
    ensures { Gives
        (walk.after_dot (spec.world (N.sight names.now) entities.now) at.now
        (parts_of name.now) (text_of name.now) prefix)
        (walk.shown_after (spec.world (N.sight names.now) entities.now) at.now
        (parts_of name.now) (text_of name.now) prefix)
        result }
{
    if prefix.is_unkept() {
        return seen(names, entities, at, name);
    }
    part(alloc, entities, at, prefix, &name.text)
}

#[tactic(auto, using(crate::proofs::Firsts::first_stays, crate::proofs::Firsts::first_after))]
fn selected<N: Lookup>(
    alloc: Global,
    names: &N,
    entities: &Entities,
    at: &Path,
    prefix: &Node,
    name: &Node,
) -> Result<Named, Stop>
    ensures { Gives
        (walk.select_faults (spec.world (N.sight names.now) entities.now) at.now
        (parts_of prefix.now) (parts_of name.now) (text_of name.now))
        (walk.select_denoted (spec.world (N.sight names.now) entities.now) at.now
        (parts_of prefix.now) (parts_of name.now) (text_of name.now))
        result }
{
    let before = seen(names, entities, &kid(alloc, at, 0)?, prefix)?;
    after_dot(alloc, names, entities, at, before, name)
}

/// What a name in an expression stands for: of two parts, what the package shows, or a part of an object.
pub fn denoted<N: Lookup>(
    alloc: Global,
    names: &N,
    entities: &Entities,
    at: &Path,
    name: &Node,
) -> Result<Named, Stop>
    ensures { Gives
        (walk.name_faults (spec.world (N.sight names.now) entities.now) at.now
        (parts_of name.now))
        (walk.denoted (spec.world (N.sight names.now) entities.now) at.now (parts_of name.now))
        result }
{
    match name.kind {
        Kind::Name => seen(names, entities, at, name),
        Kind::Select => match name.kids.as_slice() {
            [prefix] if prefix.kind == Kind::Name => {
                selected(alloc, names, entities, at, prefix, name)
            }
            _ => Ok(no_name()),
        },
        _ => Ok(no_name()),
    }
}

// What is no name.
fn no_name() -> Named
    ensures { result ≡ walk.no_name }
{
    Named::Part(BaseType::Unjudged)
}

impl Named {
    fn is_mark(self) -> bool
        ensures { result ≡ walk.is_mark self }
    {
        match self {
            Named::Mark(_, _) => true,
            _ => false,
        }
    }
}

// A name that must be of a type or subtype, as a whole.
#[tactic(auto, using(crate::proofs::Firsts::first_stays, crate::proofs::Firsts::first_after))]
fn own_mark<N: Lookup>(
    alloc: Global,
    names: &N,
    entities: &Entities,
    at: &Path,
    name: &Node,
) -> Result<Named, Stop>
    ensures { Gives
        (walk.own_mark_faults (spec.world (N.sight names.now) entities.now) at.now
        (parts_of name.now))
        (walk.stands (spec.world (N.sight names.now) entities.now) (parts_of name.now) at.now)
        result }
{
    let named = seen(names, entities, at, name)?;
    ask(alloc, at, &[(Code::F08, !named.is_mark())])?;
    Ok(named)
}

// The name of a package before a dot.
#[tactic(auto, using(crate::proofs::Firsts::first_stays, crate::proofs::Firsts::first_after), unfolding(crate::specs::Expressions::package_faults))]
fn package<N: Lookup>(
    alloc: Global,
    names: &N,
    entities: &Entities,
    at: &Path,
    name: &Node,
) -> Result<(), Stop>
    ensures { Gives
        (walk.package_faults (spec.world (N.sight names.now) entities.now) at.now
        (parts_of name.now))
        tt
        result }
{
    let named = seen(names, entities, at, name)?;
    ask(alloc, at, &[(Code::F08, !named.is_unkept())])
}

#[tactic(auto, using(crate::proofs::Firsts::first_stays, crate::proofs::Firsts::first_after))]
fn selected_mark<N: Lookup>(
    alloc: Global,
    names: &N,
    entities: &Entities,
    at: &Path,
    prefix: &Node,
    name: &Node,
) -> Result<Named, Stop>
    ensures { Gives
        (walk.select_mark_faults (spec.world (N.sight names.now) entities.now) at.now
        (parts_of prefix.now) (parts_of name.now))
        (walk.stands (spec.world (N.sight names.now) entities.now) (parts_of name.now) at.now)
        result }
{
    package(alloc, names, entities, &kid(alloc, at, 0)?, prefix)?;
    own_mark(alloc, names, entities, at, name)
}

// What is no name.
fn no_mark(alloc: Global, at: &Path) -> Result<Named, Stop>
    ensures { Gives (asks at.now ((code.F08, true) ∷ [])) walk.no_name result }
{
    ask(alloc, at, &[(Code::F08, true)])?;
    Ok(no_name())
}

/// What a name that must be of a type or subtype stands for.
pub fn mark<N: Lookup>(
    alloc: Global,
    names: &N,
    entities: &Entities,
    at: &Path,
    name: &Node,
) -> Result<Named, Stop>
    ensures { Gives
        (walk.mark_faults (spec.world (N.sight names.now) entities.now) at.now
        (parts_of name.now))
        (walk.marked (spec.world (N.sight names.now) entities.now) at.now (parts_of name.now))
        result }
{
    match name.kind {
        Kind::Name => own_mark(alloc, names, entities, at, name),
        Kind::Select => match name.kids.as_slice() {
            [prefix] if prefix.kind == Kind::Name => {
                selected_mark(alloc, names, entities, at, prefix, name)
            }
            _ => no_mark(alloc, at),
        },
        _ => no_mark(alloc, at),
    }
}
