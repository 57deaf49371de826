//! Laws of any calls.
ghost use Rattle.std.specs.Prelude.{◌≡◌, ◌≢◌, ◌+◌, ◌<◌, ◌≤◌, ℕ, Bool, true, List, Result, count_by, if◌then◌else◌};
ghost use Rattle.band_base.specs.declared.poll.Poll.{Poll as ThePoll};
ghost use Rattle.band_base.specs.declared.poll.PollError.{PollError as TheError};
ghost use Rattle.band_base.specs.declared.waker.Waker.{Waker as TheWaker};
ghost use Rattle.band_signal.specs.Barrier.{BarrierState, BarrierWaitState, PollsBarrier, has_ended, next_generation};
ghost use Rattle.band_signal.specs.Countdown.{Countdown, is_at_zero, arrived, decremented};
ghost use Rattle.band_signal.specs.Group.{Group, is_deserted, with_handle, without_handle};
ghost use Rattle.band_signal.specs.Laws.{Turn, Does, leads_by, leads, Run};
ghost use Rattle.band_signal.specs.Waits.{Life, NotPolled, IsOwn, cancelled};

/// Each completed generation of a barrier has one leader, the arrival that completed it.
pub fn generations_have_one_leader()
    ensures each { (turn : Turn) (old new : BarrierState) → Does turn old new
        → new.generation ≡ old.generation + (if leads turn then 1 else 0) }
    ensures all { (turns : List Turn) (first last : BarrierState) → Run turns first last
        → last.generation ≡ first.generation + count_by leads turns }
    ensures arrival { (before after : BarrierWaitState) (waker : TheWaker) (answer : Result (ThePoll Bool) TheError)
        (old new : BarrierState) → PollsBarrier before.life before waker old answer after new
        → leads_by answer ≡ true → (before.life ≡ NotPolled) × (old.size ≤ old.arrived + 1) }
{}

/// A generation that has ended stays so. A wait that arrived in it never takes another's registration out, nor puts its
/// own waker there, whatever is registered after it.
pub fn ended_waits_leave_the_set()
    ensures ended { (turns : List Turn) (first last : BarrierState) → Run turns first last
        → (wait : BarrierWaitState) → wait.generation < first.generation → has_ended wait last ≡ true }
    ensures cancel { (turns : List Turn) (first last : BarrierState) → Run turns first last
        → (wait : BarrierWaitState) → wait.generation < first.generation
        → cancelled (has_ended wait last) wait.life last.waits ≡ last.waits }
    ensures poll { (turns : List Turn) (first last next : BarrierState) → Run turns first last
        → (wait after : BarrierWaitState) (waker : TheWaker) (answer : Result (ThePoll Bool) TheError)
        → wait.generation < first.generation → wait.life ≢ NotPolled
        → PollsBarrier wait.life wait waker last answer after next → next ≡ last }
{}

/// Whoever is registered stays so across the calls of others that are no waits, or what it waits for has come by them. Of
/// a completion it has come by each that wakes.
pub fn registrations_stand()
    ensures countdown { (n : ℕ) (life : Life) (old : Countdown) → IsOwn (is_at_zero old) life old.waits
        → IsOwn (is_at_zero (arrived n old)) life (arrived n old).waits }
    ensures decrement { (n : ℕ) (life : Life) (old : Countdown) → IsOwn (is_at_zero old) life old.waits
        → IsOwn (is_at_zero (decremented n old)) life (decremented n old).waits }
    ensures handle { (life : Life) (old : Group) → 0 < old.handles → IsOwn (is_deserted old) life old.waits
        → IsOwn (is_deserted (with_handle old)) life (with_handle old).waits }
    ensures group { (life : Life) (old : Group) → IsOwn (is_deserted old) life old.waits
        → IsOwn (is_deserted (without_handle old)) life (without_handle old).waits }
    ensures barrier { (wait : BarrierWaitState) (old : BarrierState) → wait.generation ≤ old.generation
        → has_ended wait (next_generation old) ≡ true }
{}

/// What a countdown and a group wait for stays once it has come.
pub fn zero_stays()
    ensures countdown { (n : ℕ) (old : Countdown) → is_at_zero old ≡ true → is_at_zero (arrived n old) ≡ true }
    ensures decrement { (n : ℕ) (old : Countdown) → is_at_zero old ≡ true → is_at_zero (decremented n old) ≡ true }
    ensures group { (old : Group) → is_deserted old ≡ true → is_deserted (without_handle old) ≡ true }
{}
