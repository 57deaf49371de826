//! The caller's manager of objects.
ghost use Rattle.std.specs.Prelude.{◌≡◌, ℕ, Option};
ghost use Rattle.band_objects.specs.Manager.{Call, Creates, PollsCreation, Checks, PollsCheck, Detaches, handed, Tells};

use crate::ObjectStatus;
use band_base::{Poll, PollError, Waker};

/// Makes the objects of a pool, checks those that are to be used again, and takes leave of those that are not. A creation
/// and a check are states that are polled, in place of futures. Ports `ManageObject`.
pub trait ManageObject {
    /// What it makes.
    type Object: Drop;

    /// Why a creation or a check failed.
    type Error: Drop;

    /// A creation that was begun.
    type Creating: Drop;

    /// A check that was begun.
    type Checking: Drop;

    /// What a call may do: the manager before it, the call with its answer, and the manager after it. Each implementation
    /// states its own.
    ghost moves: { Self → Call Self.Object Self.Error Self.Creating Self.Checking → Self → Type 0 };

    /// How many objects it was handed by `on_detached`, as long as it tells.
    ghost detached: { Self → Option ℕ };

    /// Begins a creation.
    fn create(&mut self) -> Self::Creating
        ensures { moves self.old (Creates result) self.new };

    /// Polls a creation. `Pending` leaves this waker in place of the one before.
    fn poll_create(
        &mut self,
        c: &mut Self::Creating,
        waker: Waker,
    ) -> Result<Poll<Result<Self::Object, Self::Error>>, PollError>
        ensures { moves self.old (PollsCreation c.old waker.0 result c.new) self.new };

    /// Begins a check whether an object may be used again.
    fn is_recyclable(&mut self, o: &Self::Object, status: &ObjectStatus) -> Self::Checking
        ensures { moves self.old (Checks o.now status.now result) self.new };

    /// Polls a check, which may mend the object. `Pending` leaves this waker in place of the one before.
    fn poll_recyclable(
        &mut self,
        c: &mut Self::Checking,
        o: &mut Self::Object,
        status: &ObjectStatus,
        waker: Waker,
    ) -> Result<Poll<Result<(), Self::Error>>, PollError>
        ensures { moves self.old (PollsCheck c.old o.old status.now waker.0 result c.new o.new) self.new };

    /// Takes leave of an object that has left the pool.
    fn on_detached(&mut self, o: &mut Self::Object)
        ensures { moves self.old (Detaches o.old o.new) self.new };

    // Only `on_detached` raises the number, by one.
    ghost told: { (before : Self) (call : Call Self.Object Self.Error Self.Creating Self.Checking) (after : Self)
        → moves before call after → Tells (handed call) (detached before) (detached after) };
}
