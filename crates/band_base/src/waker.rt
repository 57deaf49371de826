//! A waker is a number.
ghost use Rattle.std.specs.Prelude.{◌≡◌, ◌↔◌, IsTrue};

/// A number that stands for whom to wake. Ports `std::task::Waker`.
#[derive(Clone, Copy, PartialEq, Eq)]
pub struct Waker(pub u64);

impl Waker {
    /// Whether both wake the same.
    pub fn will_wake(&self, other: &Waker) -> bool
        ensures { IsTrue result ↔ (self.now.0 ≡ other.now.0) }
    {
        self == other
    }
}
