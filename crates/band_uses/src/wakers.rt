//! What equal wakers are.
ghost use Rattle.std.specs.Prelude.{◌≡◌, ◌↔◌, IsTrue};

use band_base::Waker;

/// Whether two tasks leave the same number to be woken by.
pub fn are_same(first: Waker, second: Waker) -> bool
    ensures { IsTrue result ↔ (first ≡ second) }
{
    first == second
}
