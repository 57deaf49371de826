//! A place for one value.
ghost use Rattle.std.specs.Prelude.{◌≡◌, Some, None, is_some, option_copied};
ghost use Rattle.std.specs.Option.{option_copied_mut};
ghost use Rattle.std.specs.Borrow.{sem};

use std::marker::Model;
use std::mem;

/// A value, or none yet. Ports `ValueCell`.
#[derive(Drop)]
pub struct ValueCell<T> {
    value: Option<T>,
}

impl<T> Model for ValueCell<T> {
    ghost use Rattle.std.specs.Prelude.{Option};

    ghost Value = { Option T };

    ghost view = { λ c. c.value };
}

impl<T> ValueCell<T> {
    ghost use Rattle.band_once.specs.CellLends.{lends_value, rests_with};

    /// One without a value.
    pub fn new() -> ValueCell<T>
        ensures { result ≡ None }
    {
        ValueCell { value: None }
    }

    /// One with this value.
    pub fn from_value(value: T) -> ValueCell<T>
        ensures { result ≡ Some value }
    {
        ValueCell { value: Some(value) }
    }

    /// Whether it has a value.
    pub fn is_initialized(&self) -> bool
        ensures { result ≡ is_some self.now }
    {
        self.value.is_some()
    }

    /// The value.
    pub fn get(&self) -> Option<&T>
        ensures { option_copied result ≡ self.now }
    {
        self.value.as_ref()
    }

    /// The value for writing.
    pub fn get_mut(&mut self) -> Option<&mut T>
        ensures* writes_back { sem 𝓛 (lends_value T.row self.entry result) }
        ensures value { option_copied_mut result ≡ self.old }
    {
        self.value.as_mut()
    }

    /// The value alone.
    pub fn into_inner(self) -> Option<T>
        ensures { result ≡ self }
    {
        let ValueCell { value } = self;
        value
    }

    /// Takes the value out.
    pub fn take(&mut self) -> Option<T>
        ensures value { result ≡ self.old }
        ensures state { self.new ≡ None }
    {
        self.value.take()
    }

    /// Puts the value into one that has none, and lends it.
    pub fn set(&mut self, value: T) -> &T
        requires { self.old ≡ None }
        ensures* writes_back { sem 𝓛 (rests_with T.row self.entry value) }
        ensures value { result.now ≡ value }
    {
        self.put(value);
        match &self.value {
            Some(value) => value,
            None => unreachable!(),
        }
    }

    /// Puts the value into one that has none.
    pub(crate) fn put(&mut self, value: T)
        requires { self.old ≡ None }
        ensures { self.new ≡ Some value }
    {
        match mem::replace(&mut self.value, Some(value)) {
            None => {}
            Some(_) => unreachable!(),
        }
    }
}
