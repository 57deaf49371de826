//! Laws of the condition variable.
ghost use Rattle.std.specs.Prelude.{◌≡◌, ◌+◌, ◌⊎◌, ℕ, Bool, Some, None, Ok, Err, Result, false, true, IsTrue, MatchBool};
ghost use Rattle.band_base.specs.declared.poll.Poll.{Poll as ThePoll};
ghost use Rattle.band_base.specs.declared.poll.Poll.TheVariants.{Ready, Pending};
ghost use Rattle.band_base.specs.declared.poll.PollError.{PollError as TheError};
ghost use Rattle.band_base.specs.declared.poll.PollError.TheVariants as errors;
ghost use Rattle.band_base.specs.declared.waker.Waker.{Waker as TheWaker};
ghost use Rattle.band_condvar.specs.Batons.{chosen_count, batons, ended, ended_while};
ghost use Rattle.band_condvar.specs.Condvar.{CondvarState, IsCondvar, one_notified, all_notified};
ghost use Rattle.band_condvar.specs.Waits.{Stage, Reacquiring, Wait, Monitor, Polls, has_baton, uncalled, cancelled, Test, Answers, has_turn, JoinsMutex, PollsWhile};
ghost use Rattle.band_line.specs.WaitList.{first_waiter};
ghost use Rattle.band_sem.specs.Permit.{Permit};
ghost use Rattle.band_sem.specs.Semaphore.{is_granted};

/// A baton is given by `notify_one` to the first in line. A poll ends that of its own wait alone: of a `CondWait` where it
/// is ready, and of a `CondWaitWhile` where it has the mutex again, and so is ready or waits again. A cancel hands it on to
/// the first in line, if there is one.
pub fn batons_are_kept<T, F: FnMut(&mut T) -> bool>()
    ensures notify_one { (state : CondvarState) (slot : ℕ) → IsCondvar state
        → first_waiter state.line ≡ Some slot → chosen_count (one_notified state) ≡ chosen_count state + 1 }
    ensures notify_all { (state : CondvarState) → chosen_count (all_notified state) ≡ chosen_count state }
    ensures poll { (wait next : Wait) (waker : TheWaker) (old new : Monitor)
        (result : Result (ThePoll Permit) TheError) → Polls wait waker old result next new
        → batons next.stage new.condvar + ended result (has_baton wait.stage old.condvar)
        ≡ batons wait.stage old.condvar }
    ensures poll_while { (wait next : Wait) (waker : TheWaker) (before after : Test F T) (old new : Monitor)
        (result : Result (ThePoll Permit) TheError)
        → PollsWhile F.FnMut wait waker before old result after next new
        → batons next.stage new.condvar + ended_while result (has_baton wait.stage old.condvar) next.stage
        ≡ batons wait.stage old.condvar }
    ensures cancel { (stage : Stage) (state : CondvarState) (slot : ℕ) → IsCondvar state
        → first_waiter (uncalled stage state).line ≡ Some slot
        → chosen_count (cancelled stage state) ≡ batons stage state }
    ensures nobody { (stage : Stage) (state : CondvarState)
        → first_waiter (uncalled stage state).line ≡ None → cancelled stage state ≡ uncalled stage state }
{}

/// A wait with a condition is ready only where the condition answered false. Where it goes on, the condition answered true
/// if the poll had the guard, and else was not asked; and where a poll is refused it was not asked.
pub fn a_wait_ends_where_its_condition_is_false<T, F: FnMut(&mut T) -> bool>()
    ensures ends { (wait next : Wait) (waker : TheWaker) (before after : Test F T) (old new : Monitor)
        (guard : Permit) → PollsWhile F.FnMut wait waker before old (Ok (Ready guard)) after next new
        → IsTrue (has_turn wait.stage old) × Answers F.FnMut before false after }
    ensures goes_on { (wait next : Wait) (waker : TheWaker) (before after : Test F T) (old new : Monitor)
        → PollsWhile F.FnMut wait waker before old (Ok Pending) after next new
        → MatchBool (has_turn wait.stage old) (Answers F.FnMut before true after) (after ≡ before) }
    ensures refused { (wait next : Wait) (waker : TheWaker) (before after : Test F T) (old new : Monitor)
        (error : TheError) → PollsWhile F.FnMut wait waker before old (Err error) after next new
        → after ≡ before }
{}

/// A poll of a wait with a condition finds no memory only where it is its turn to ask, or it has to join the mutex's line. One
/// in that line takes no memory until it was granted the mutex.
pub fn waiting_takes_no_memory<T, F: FnMut(&mut T) -> bool>()
    ensures no_memory { (wait next : Wait) (waker : TheWaker) (before after : Test F T) (old new : Monitor)
        → PollsWhile F.FnMut wait waker before old (Err errors.NoMemory) after next new
        → IsTrue (has_turn wait.stage old) ⊎ JoinsMutex wait.stage old }
    ensures in_line { (wait next : Wait) (waker : TheWaker) (before after : Test F T) (old new : Monitor)
        (result : Result (ThePoll Permit) TheError) (baton : Bool) (slot : ℕ)
        → wait.stage ≡ Reacquiring baton slot → is_granted slot old.mutex ≡ false
        → PollsWhile F.FnMut wait waker before old result after next new → result ≡ Ok Pending }
{}
