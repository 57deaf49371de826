//! What has become of a wait in a condition variable.
ghost use Rattle.std.specs.Prelude.{◌≡◌};
ghost use Rattle.band_condvar.specs.Kept.Queue.{with_new_waker, call_of};

use band_base::Waker;

#[derive(Drop)]
pub(crate) enum Place {
    /// It waits in line, and left this waker.
    Queued(Waker),
    /// One notification chose it: it has its baton.
    Chosen,
    /// It was released together with all that were in line.
    Released,
}

impl Place {
    /// Leaves a waker where it is queued. Where it was called, the answer is whether it was chosen.
    pub(crate) fn leave(&mut self, waker: Waker) -> Option<bool>
        ensures answer { result ≡ call_of self.old }
        ensures state { self.new ≡ with_new_waker waker self.old }
    {
        match self {
            Place::Queued(current) => {
                *current = waker;
                None
            }
            Place::Chosen => Some(true),
            Place::Released => Some(false),
        }
    }
}
