//! The once cell.
ghost use Rattle.std.specs.Prelude.{◌≡◌, ◌↔◌, Some, None, option_copied, is_some, IsTrue, IsSome, IfOk, OnErr};
ghost use Rattle.std.specs.Option.{option_copied_mut, option_eq};
ghost use Rattle.std.specs.Borrow.{sem};
ghost use Rattle.std.specs.Cmp.{on_per, on_equiv};
ghost use Rattle.std.specs.Ordering.{on};
ghost use Rattle.std.proofs.Common.{rules};
ghost use Rattle.band_sem.specs.Semaphore.{TakesWake};
ghost use Rattle.band_sem.specs.Whole.{IsWhole};
ghost use Rattle.band_once.specs.Cell.{new_cell, attempted, IsCloned};
ghost use Rattle.band_once.specs.Idle.{IsIdle};
ghost use Rattle.band_once.specs.declared.call.CallStage.TheVariants as stage;

use crate::call::CallStage;
use crate::{CellInit, CellInitMut, CellInsert, CellTryInit, CellTryInitMut, ValueCell};
use band_base::Waker;
use band_sem::Semaphore;
use std::alloc::{AllocError, Global};
use std::marker::Model;

/// A value that is made once, by a state of the caller that is polled. Ports `OnceCell`, as a state that is changed by one call at a time.
#[derive(Drop)]
pub struct OnceCell<T> {
    pub(crate) value: ValueCell<T>,
    pub(crate) permit: Semaphore,
    alloc: Global,
}

impl<T> Model for OnceCell<T> {
    ghost use Rattle.band_sem.specs.Whole.{IsWhole};
    ghost use Rattle.band_once.specs.Cell.{CellState};

    ghost Value = { CellState T };

    ghost view = { λ c. record { value = c.value; permit = c.permit } };

    ghost invariant = { λ c. IsWhole 1 c.permit };
}

impl<T> OnceCell<T> {
    ghost use Rattle.band_once.specs.CellLends.{lends_cell};

    /// A cell without a value, which calls know by `number`.
    pub fn new(alloc: Global, number: u64) -> OnceCell<T>
        ensures start { result ≡ new_cell None number }
        ensures whole { IsWhole 1 result.permit }
    {
        OnceCell {
            value: ValueCell::new(),
            permit: Semaphore::new(alloc, number, 1),
            alloc,
        }
    }

    /// A cell with this value.
    pub fn from_value(alloc: Global, number: u64, value: T) -> OnceCell<T>
        ensures start { result ≡ new_cell (Some value) number }
        ensures whole { IsWhole 1 result.permit }
    {
        OnceCell {
            value: ValueCell::from_value(value),
            permit: Semaphore::new(alloc, number, 1),
            alloc,
        }
    }

    /// The value.
    pub fn get(&self) -> Option<&T>
        ensures { option_copied result ≡ self.now.value }
    {
        self.value.get()
    }

    /// The value for writing.
    pub fn get_mut(&mut self) -> Option<&mut T>
        ensures* writes_back { sem 𝓛 (lends_cell T.row self.entry result) }
        ensures value { option_copied_mut result ≡ self.old.value }
    {
        self.value.get_mut()
    }

    /// Whether it has a value.
    pub(crate) fn is_initialized(&self) -> bool
        ensures { result ≡ is_some self.now.value }
    {
        self.value.is_initialized()
    }

    /// Whether no call waits for the permit, was granted it or holds it.
    pub fn is_idle(&self) -> bool
        ensures { IsTrue result ↔ IsIdle self.now.permit }
    {
        self.permit.available_permits() == 1
    }

    /// A call that polls `init` for the value where there is none, not polled yet.
    pub fn get_or_init<P>(&self, init: P) -> CellInit<P>
        ensures { result ≡ stage.NotPolled init }
    {
        CellInit::new(init)
    }

    /// The same with an initializer that may give an error, which leaves the cell empty.
    pub fn get_or_try_init<P>(&self, init: P) -> CellTryInit<P>
        ensures { result ≡ stage.NotPolled init }
    {
        CellTryInit::new(init)
    }

    /// A call that needs no permit, while no other call has one.
    pub fn get_mut_or_init<P>(&self, init: P) -> CellInitMut<P>
        ensures { result ≡ Some init }
    {
        CellInitMut::new(init)
    }

    /// The same with an initializer that may give an error, which leaves the cell empty.
    pub fn get_mut_or_try_init<P>(&self, init: P) -> CellTryInitMut<P>
        ensures { result ≡ Some init }
    {
        CellTryInitMut::new(init)
    }

    /// A call that puts this value in where there is none, not polled yet.
    pub fn try_insert(&self, value: T) -> CellInsert<T>
        ensures { result ≡ stage.NotPolled value }
    {
        CellInsert::new(value)
    }

    /// The same.
    pub fn set(&self, value: T) -> CellInsert<T>
        ensures { result ≡ stage.NotPolled value }
    {
        self.try_insert(value)
    }

    /// Takes the value out.
    pub fn take(&mut self) -> Option<T>
        requires { IsIdle self.old.permit }
        ensures value { result ≡ self.old.value }
        ensures state { self.new ≡ record self.old { value = None } }
        ensures whole { IsWhole 1 self.new.permit }
    {
        self.value.take()
    }

    /// The value alone.
    pub fn into_inner(self) -> Option<T>
        requires { IsIdle self.permit }
        ensures { result ≡ self.value }
    {
        let OnceCell {
            value,
            permit: _,
            alloc: _,
        } = self;
        value.into_inner()
    }

    /// Publishes an initializer's value, or leaves the cell empty for its error.
    pub(crate) fn attempted<E>(&mut self, output: Result<T, E>) -> Result<(), E>
        requires { self.old.value ≡ None }
        ensures value { self.new.value ≡ (attempted output).value }
        ensures answer { result ≡ (attempted output).answer }
        ensures permit { self.new.permit ≡ self.old.permit }
    {
        match output {
            Ok(value) => {
                self.value.put(value);
                Ok(())
            }
            Err(error) => Err(error),
        }
    }

    /// Takes the oldest waker to wake, if there is one.
    pub fn take_wake(&mut self) -> Option<Waker>
        ensures woken { TakesWake self.old.permit result self.new.permit }
        ensures value { self.new.value ≡ self.old.value }
        ensures whole { IsWhole 1 self.new.permit }
    {
        self.permit.take_wake()
    }
}

impl<T: Clone> OnceCell<T> {
    /// A cell with a clone of the value, or with none, which calls know by `number`. Its permit is free.
    pub fn try_clone(&self, number: u64) -> Result<OnceCell<T>, AllocError>
        ensures value { IfOk result (λ cell. IsCloned T.is_clone self.now.value cell.value) }
        ensures start { IfOk result (λ cell. cell ≡ new_cell cell.value number) }
        ensures err { OnErr result (IsSome self.now.value) }
    {
        match self.get() {
            Some(value) => Ok(OnceCell::from_value(self.alloc, number, value.clone()?)),
            None => Ok(OnceCell::new(self.alloc, number)),
        }
    }
}

impl<T: PartialEq> PartialEq for OnceCell<T> {
    ghost eq = { on (λ cell. cell.value) (option_eq T.eq) };

    ghost laws = { on_per (λ cell. cell.value) (Prim.search rules) };

    fn eq(&self, other: &OnceCell<T>) -> bool {
        self.get() == other.get()
    }
}

impl<T: Eq> Eq for OnceCell<T> {
    ghost laws = { on_equiv (λ cell. cell.value) (Prim.search rules) };
}
