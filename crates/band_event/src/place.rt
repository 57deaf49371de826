//! What has become of a wait in a queue.
ghost use Rattle.std.specs.Prelude.{◌≡◌, Some};
ghost use Rattle.band_event.specs.Event.{is_called};
ghost use Rattle.band_event.specs.Kept.Queue.{with_new_waker};

use band_base::Waker;

#[derive(Drop)]
pub(crate) enum Place {
    /// It waits in line, and left this waker.
    Queued(Waker),
    /// It was called, and is in line no more.
    Called,
}

impl Place {
    /// Leaves a waker where it is queued, and tells whether it was called.
    pub(crate) fn leave(&mut self, waker: Waker) -> bool
        ensures answer { result ≡ is_called (Some self.old) }
        ensures state { self.new ≡ with_new_waker waker self.old }
    {
        match self {
            Place::Queued(current) => {
                *current = waker;
                false
            }
            Place::Called => true,
        }
    }
}
