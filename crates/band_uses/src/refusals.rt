//! What equal refusals are.
ghost use Rattle.std.specs.Prelude.{◌≡◌, ◌↔◌, IsTrue};

use band_sem::Refusal;

/// Whether two calls were refused for the same reason.
pub fn are_alike(first: Refusal, second: Refusal) -> bool
    ensures { IsTrue result ↔ (first ≡ second) }
{
    first == second
}
