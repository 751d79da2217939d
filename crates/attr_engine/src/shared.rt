// A value with several owners, in one thread.
ghost use Rattle.std.specs.Prelude.{◌≡◌, IfOk};

use base_kit::Memory;
use std::alloc::Global;
use std::marker::Model;
use std::rc::Rc;

/// A value behind an `Rc`, which contracts see as that value, so that a tree of them is plain data.
#[derive(Drop)]
pub struct Shared<T> {
    inner: Rc<T>,
}

impl<T> Model for Shared<T> {
    ghost Value = { T };

    ghost coded = { T.code };

    ghost view = { λ shared. shared.inner.value };
}

impl<T> Shared<T> {
    pub fn get(&self) -> &T
        ensures { result.now ≡ self.now }
    {
        &self.inner
    }
}

impl<T: Drop> Shared<T> {
    pub fn new(alloc: Global, value: T) -> Result<Shared<T>, Memory>
        ensures { IfOk result (λ shared. shared ≡ value) }
    {
        Ok(Shared {
            inner: Rc::new(alloc, value)?,
        })
    }

    /// One more owner. The value isn't copied.
    pub fn share(&self) -> Result<Shared<T>, Memory>
        ensures { IfOk result (λ shared. shared ≡ self.now) }
    {
        Ok(Shared {
            inner: self.inner.clone()?,
        })
    }

    /// One more owner, as an `Rc`.
    pub fn counted(&self) -> Result<Rc<T>, Memory>
        ensures { IfOk result (λ counted. counted.value ≡ self.now) }
    {
        Ok(self.inner.clone()?)
    }
}
