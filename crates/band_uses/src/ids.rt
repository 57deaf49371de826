//! What equal ids are.
ghost use Rattle.std.specs.Prelude.{◌≡◌, ◌↔◌, IsTrue};

use band_line::{SlotId, WaiterId};

/// Whether two values are in the same slot.
pub fn are_same_slot(first: SlotId, second: SlotId) -> bool
    ensures { IsTrue result ↔ (first ≡ second) }
{
    first == second
}

/// Whether two ids are of the same node.
pub fn are_same_waiter(first: WaiterId, second: WaiterId) -> bool
    ensures { IsTrue result ↔ (first ≡ second) }
{
    first == second
}
