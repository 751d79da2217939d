//! What names, marks and static expressions mean, and the first fault of each.
#![tactic(auto)]

mod attribute;
pub mod attributes;
mod components;
mod dividing;
mod entity;
mod expressions;
mod form;
mod judging;
mod limits;
mod meaning;
mod naming;
pub mod rules;
mod values;

pub use attribute::Attribute;
pub use entity::{BaseType, Class, Component, Entity, Index, Named, Shape, Subtype};
pub use expressions::expression;
pub use judging::ask;
pub use limits::{BASE_HIGH, BASE_LOW};
pub use meaning::{Meaning, Use};
pub use naming::{Entities, denoted, mark};
pub use rules::{unknown, value_of};
pub use values::{in_range, static_value};
