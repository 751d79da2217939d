// What declarations declare.
use crate::limits::{BASE_HIGH, BASE_LOW};
use base_kit::{Listed, Text};

/// The type of an expression, by the number of its declaration.
#[derive(Clone, Copy)]
pub enum BaseType {
    /// Every integer type: that of literals and numbers.
    Universal,
    Integer(u32),
    Enumeration(u32),
    Truth,
    /// An array, a record, or a private type before its full type.
    Composite(u32),
    /// It isn't judged here: that of a call, an aggregate, a part of an object, and of all that has a fault.
    Unjudged,
}

/// A subtype: the number of its type's declaration, and its entry in the list of type names. Its range is
/// told where the type has numbers or positions, BOOLEAN's 0 .. 1 too, and is 0 .. 0 elsewhere. A private type
/// before its full type has no entry, which is told as 0.
#[derive(Clone, Copy)]
pub struct Subtype {
    pub base: u32,
    pub entry: u32,
    pub low: i64,
    pub high: i64,
}

/// The range of an array's indexes, and their type.
#[derive(Clone, Copy)]
pub struct Index {
    pub base: BaseType,
    pub low: i64,
    pub high: i64,
}

/// A component of a record.
#[derive(Drop)]
pub struct Component {
    pub name: Text,
    pub subtype: Subtype,
}

/// What a type is made of.
#[derive(Drop)]
pub enum Shape {
    Integer,
    /// The values are the positions of the literals, from 0.
    Enumeration,
    Truth,
    /// The indexes, and the elements.
    Array(Index, Subtype),
    /// The components in order.
    Record(Listed<Component>),
    /// A private type before its full type.
    Private,
}

/// What a name declares.
#[derive(Drop)]
pub enum Entity {
    /// A type, and the subtype of all its values.
    Type(Subtype, Shape),
    Subtype(Subtype),
    /// A variable, or a constant that isn't static.
    Object(Subtype),
    /// A subtype of a private type that stands before the full type, by the type's number, with its own entry. It
    /// has all values of the type.
    PrivateSubtype(u32, u32),
    /// An object of a private type that stands before the full type, by the type's number.
    PrivateObject(u32),
    /// A static constant or an enumeration literal.
    Static(Subtype, i64),
    Number(i64),
    Exception,
}

/// What a type is, as far as its attributes need it.
#[derive(Clone, Copy)]
pub enum Class {
    Integer,
    Enumeration,
    Truth,
    Array(Index),
    Record,
    /// Its full type isn't declared yet.
    Private,
    /// No declaration of it is kept.
    Unknown,
}

/// What a name stands for in an expression, with what its type is.
#[derive(Clone, Copy)]
pub enum Named {
    /// A type or a subtype.
    Mark(Subtype, Class),
    Object(Subtype, Class),
    Static(Subtype, Class, i64),
    Number(i64),
    /// What has no value, as an exception.
    Valueless,
    /// A component of an object, and its type.
    Part(BaseType),
    /// What isn't kept, as a package or a subprogram.
    Unkept,
}

/// What a name after the dot behind a value selects.
#[derive(Clone, Copy)]
pub enum Selected {
    /// A component, by its type.
    Component(BaseType),
    /// The value's record has no such component.
    Missing,
    /// The value is no record.
    NoRecord,
    /// The value isn't judged here.
    Unjudged,
}

// INTEGER, NATURAL, POSITIVE and BOOLEAN, whose entries are the first four of the list of type names.
const INTEGER: Subtype = Subtype {
    base: 0,
    entry: 0,
    low: BASE_LOW,
    high: BASE_HIGH,
};

const NATURAL: Subtype = Subtype {
    base: 0,
    entry: 1,
    low: 0,
    high: BASE_HIGH,
};

const POSITIVE: Subtype = Subtype {
    base: 0,
    entry: 2,
    low: 1,
    high: BASE_HIGH,
};

const BOOLEAN: Subtype = Subtype {
    base: 3,
    entry: 3,
    low: 0,
    high: 1,
};

/// The predefined names, by their numbers.
pub const PREDEFINED: [Named; 9] = [
    // INTEGER is -2147483648 .. 2147483647
    Named::Mark(INTEGER, Class::Integer),
    // NATURAL is 0 .. 2147483647
    Named::Mark(NATURAL, Class::Integer),
    // POSITIVE is 1 .. 2147483647
    Named::Mark(POSITIVE, Class::Integer),
    Named::Mark(BOOLEAN, Class::Truth),
    // FALSE is 0, TRUE is 1
    Named::Static(BOOLEAN, Class::Truth, 0),
    Named::Static(BOOLEAN, Class::Truth, 1),
    // CONSTRAINT_ERROR, NUMERIC_ERROR and PROGRAM_ERROR
    Named::Valueless,
    Named::Valueless,
    Named::Valueless,
];
