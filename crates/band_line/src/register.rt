//! One waker in a slot.
ghost use Rattle.std.specs.Prelude.{◌≡◌, Some};
ghost use Rattle.band_line.specs.Wakers.{replaced};

use band_base::Waker;
use std::mem;

/// Leaves a waker in a slot, and answers the one that it takes the place of, if that is another. Ports
/// `register_waker`.
pub fn register_waker(slot: &mut Option<Waker>, waker: Waker) -> Option<Waker>
    ensures answer { result ≡ replaced waker slot.old }
    ensures slot { slot.new ≡ Some waker }
{
    match slot {
        Some(current) => replace_waker(current, waker),
        None => {
            *slot = Some(waker);
            None
        }
    }
}

pub(crate) fn replace_waker(current: &mut Waker, waker: Waker) -> Option<Waker>
    ensures answer { result ≡ replaced waker (Some current.old) }
    ensures current { current.new ≡ waker }
{
    if current.will_wake(&waker) {
        None
    } else {
        Some(mem::replace(current, waker))
    }
}
