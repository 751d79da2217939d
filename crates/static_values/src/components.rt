// Components of records: what a name after a dot selects.
ghost use Rattle.std.specs.Prelude.{◌≡◌, nat_eq};
ghost use Rattle.std.specs.Option.{option_copied};
ghost use Rattle.std.specs.Map.{lookup};
ghost use Rattle.static_values.specs.Components as spec;

use crate::entity::{BaseType, Component, Entity, Selected, Shape};
use crate::meaning::Meaning;
use crate::naming::Entities;
use crate::rules::whole;

// The first component of this name.
fn named<'a>(components: &'a [Component], text: &[u8]) -> Option<&'a Component>
    ensures { option_copied result ≡ spec.component_named text.now components.now }
{
    components
        .iter()
        .find(|component| component.name.as_bytes() == text)
}

impl Entities {
    fn of_component(&self, component: Option<&Component>) -> Selected
        ensures { result ≡ spec.of_component self.now (option_copied component.entry) }
    {
        match component {
            Some(component) => {
                let id = component.subtype.base;
                Selected::Component(self.class(id).base_type(id))
            }
            None => Selected::Missing,
        }
    }

    fn of_entity(&self, text: &[u8], entity: Option<&Entity>) -> Selected
        ensures { result ≡ spec.of_entity self.now text.now (option_copied entity.entry) }
    {
        match entity {
            Some(Entity::Type(_, Shape::Record(components))) => {
                self.of_component(named(components.as_slice(), text))
            }
            Some(Entity::Type(_, Shape::Private)) => Selected::Unjudged,
            Some(Entity::Type(_, _)) => Selected::NoRecord,
            _ => Selected::Unjudged,
        }
    }

    /// What this name selects of a value of the type.
    pub fn selected(&self, base: BaseType, text: &[u8]) -> Selected
        ensures { result ≡ spec.selected_of self.now base text.now }
    {
        match base {
            BaseType::Composite(id) => self.of_entity(text, self.get(id)),
            BaseType::Unjudged => Selected::Unjudged,
            _ => Selected::NoRecord,
        }
    }
}

impl Selected {
    pub fn is_missing(self) -> bool
        ensures { result ≡ spec.is_missing self }
    {
        match self {
            Selected::Missing => true,
            _ => false,
        }
    }

    pub fn is_no_record(self) -> bool
        ensures { result ≡ spec.is_no_record self }
    {
        match self {
            Selected::NoRecord => true,
            _ => false,
        }
    }

    /// The type of the component.
    pub fn base_type(self) -> BaseType
        ensures { result ≡ spec.selected_type self }
    {
        match self {
            Selected::Component(base) => base,
            _ => BaseType::Unjudged,
        }
    }

    /// What it means in an expression.
    pub fn meaning(self) -> Meaning
        ensures { result ≡ spec.selected_meaning self }
    {
        whole(self.base_type())
    }
}
