//! An object with its status.
ghost use Rattle.std.specs.Prelude.{◌≡◌};
ghost use Rattle.band_objects.specs.Status.{new_status};

use crate::ObjectStatus;

/// An object of a pool. Ports `ObjectState`.
#[derive(Drop)]
pub struct ObjectState<T> {
    /// The object itself.
    pub o: T,
    /// What is known of it.
    pub status: ObjectStatus,
}

impl<T> ObjectState<T> {
    /// An object that is made at `now`.
    pub fn new(o: T, now: u64) -> ObjectState<T>
        ensures { result ≡ record { o = o; status = new_status now } }
    {
        ObjectState {
            o,
            status: ObjectStatus::new(now),
        }
    }
}

/// What `retain` came to. Ports `RetainResult`.
#[derive(Drop)]
pub struct RetainResult<T> {
    /// How many objects are still idle.
    pub retained: u64,
    /// Those that left the pool, in the order in which they were idle.
    pub removed: Vec<T>,
}
