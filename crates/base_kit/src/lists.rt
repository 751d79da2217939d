// Lists in fields: each is a Vec that contracts see as a list, is made from one and gives it back.
ghost use Rattle.std.specs.Prelude.{◌≡◌, List, ℕ, [], ◌∷◌, ◌++◌, IfOk, OnOk, OnErr};

use crate::Memory;
use sqlite_items::{Boxed, Items};
use std::alloc::Global;
use std::marker::Model;

/// What can be copied, where memory suffices.
pub trait Copied {
    /// A value equal to this one.
    fn copy(&self, alloc: Global) -> Result<Self, Memory>
        ensures { IfOk result (λ same. same ≡ self.now) };
}

impl Copied for u32 {
    fn copy(&self, _: Global) -> Result<Self, Memory> {
        Ok(*self)
    }
}

impl Copied for i64 {
    fn copy(&self, _: Global) -> Result<Self, Memory> {
        Ok(*self)
    }
}

/// Members in order.
#[derive(Drop)]
pub struct Listed<T> {
    members: Vec<T>,
}

impl<T> Model for Listed<T> {
    ghost use Rattle.std.specs.Prelude.{List};
    ghost use Rattle.std.specs.Coded.{coded_list};

    ghost Value = { List T };

    ghost coded = { coded_list T.code };

    ghost view = { λ list. list.members.items };
}

impl<T> From<Vec<T>> for Listed<T> {
    ghost from_gives = { λ members list. list ≡ members.items };

    fn from(members: Vec<T>) -> Self {
        Listed { members }
    }
}

impl<T> Listed<T> {
    /// The list without members. It takes no memory.
    pub fn new(alloc: Global) -> Self
        ensures { result ≡ [] }
    {
        Listed {
            members: Vec::new(alloc),
        }
    }

    /// Gives the members back. It takes no memory.
    pub fn into_vec(self) -> Vec<T>
        ensures { result.items ≡ self }
    {
        self.members
    }

    pub fn as_slice(&self) -> &[T]
        ensures { result.now ≡ self.now }
    {
        self.members.as_slice()
    }
}

impl<T: Drop> Listed<T> {
    /// Adds a member at the end.
    pub fn push(&mut self, member: T) -> Result<(), Memory>
        ensures ok { OnOk result (self.new ≡ self.old ++ member ∷ []) }
        ensures err { OnErr result (self.new ≡ self.old) }
    {
        self.members.push(member)?;
        Ok(())
    }
}

impl<T: Copied + Drop> Copied for Listed<T> {
    fn copy(&self, alloc: Global) -> Result<Self, Memory> {
        let mut members = Vec::new(alloc);
        for member in &self.members {
            members.push(member.copy(alloc)?)?;
        }
        Ok(Listed { members })
    }
}

impl<T: Copied + Drop> Copied for Items<T> {
    fn copy(&self, alloc: Global) -> Result<Self, Memory> {
        let mut members = Items::new(alloc);
        for member in self.as_slice() {
            members.push(member.copy(alloc)?)?;
        }
        Ok(members)
    }
}

impl<T: Copied + Drop> Copied for Boxed<T> {
    fn copy(&self, alloc: Global) -> Result<Self, Memory> {
        Ok(Boxed::new(alloc, self.get().copy(alloc)?)?)
    }
}

/// Texts in order.
pub type Names = Listed<Text>;

/// Numbers in order.
pub type Numbers = Listed<u32>;

/// Signed numbers in order, as the bounds of ranges.
pub type Bounds = Listed<i64>;

/// The bytes of a text.
#[derive(Drop)]
pub struct Text {
    bytes: Vec<u8>,
}

impl Model for Text {
    ghost Value = { List ℕ };

    ghost view = { λ text. text.bytes.items };
}

impl From<Vec<u8>> for Text {
    ghost from_gives = { λ bytes text. text ≡ bytes.items };

    fn from(bytes: Vec<u8>) -> Self {
        Text { bytes }
    }
}

impl Text {
    /// Gives the bytes back.
    pub fn into_vec(self) -> Vec<u8>
        ensures { result.items ≡ self }
    {
        self.bytes
    }

    pub fn as_bytes(&self) -> &[u8]
        ensures { result.now ≡ self.now }
    {
        self.bytes.as_slice()
    }
}

impl Copied for Text {
    fn copy(&self, alloc: Global) -> Result<Self, Memory> {
        let bytes = Vec::from_slice(alloc, self.bytes.as_slice())?;
        Ok(Text { bytes })
    }
}

/// The way to a node of a tree: at each step the number of the child, from 0.
#[derive(Drop)]
pub struct Path(pub Vec<u32>);

impl Model for Path {
    ghost Value = { List ℕ };

    ghost view = { λ path. path.0.items };
}

impl Copied for Path {
    fn copy(&self, alloc: Global) -> Result<Self, Memory> {
        Ok(Path(Vec::from_slice(alloc, self.0.as_slice())?))
    }
}
