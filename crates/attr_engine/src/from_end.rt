// A list that is made from its end.
ghost use Rattle.std.specs.Prelude.{◌≡◌, [], ◌∷◌, IfOk};

use base_kit::Memory;
use sqlite_items::Items;
use std::alloc::Global;
use std::marker::Model;

/// A list that grows at its front, in constant time.
#[derive(Drop)]
pub struct FromEnd<T> {
    backward: Vec<T>,
}

impl<T> Model for FromEnd<T> {
    ghost use Rattle.std.specs.Prelude.{List, reverse};
    ghost use Rattle.std.specs.Coded.{coded_list};

    ghost Value = { List T };

    ghost coded = { coded_list T.code };

    ghost view = { λ list. reverse list.backward.items };
}

impl<T> FromEnd<T> {
    pub fn new(alloc: Global) -> Self
        ensures { result ≡ [] }
    {
        FromEnd {
            backward: Vec::new(alloc),
        }
    }

    pub fn into_items(self) -> Items<T>
        ensures { result ≡ self }
    {
        let mut items = self.backward;
        items.reverse();
        Items::from_vec(items)
    }
}

impl<T: Drop> FromEnd<T> {
    /// The list with this item before it.
    pub fn after(self, item: T) -> Result<Self, Memory>
        ensures { IfOk result (λ list. list ≡ item ∷ self) }
    {
        let mut backward = self.backward;
        backward.push(item)?;
        Ok(FromEnd { backward })
    }
}
