//! Laws of cells.
ghost use Rattle.std.specs.Prelude.{◌≡◌, ◌⊎◌, ℕ, Option, IsSome, Bool, Result};
ghost use Rattle.band_base.specs.declared.poll.Poll.{Poll as ThePoll};
ghost use Rattle.band_base.specs.declared.poll.PollError.{PollError as TheError};
ghost use Rattle.band_once.specs.declared.attempt.Attempt.TheVariants.{Running, Done};
ghost use Rattle.band_once.specs.declared.call.CallStage.{CallStage};
ghost use Rattle.band_once.specs.Cell.{CellState, Outcome, PollsCell, PollsInsert, PollsMut};
ghost use Rattle.band_once.specs.Lazy.{LazyState, PollsLazy, PollsLazyMut, IsDriven};

use band_base::Polled;

/// A value that is there stays under each poll of a call, so a cell publishes at most once until it is taken. That a cancel
/// keeps it, and a look, their clauses say.
pub fn a_value_stays<T, V, O, P: Polled<Output = V>>()
    ensures calls { (there : O) (made : V → Outcome T O) (waker : ℕ) (call next : CallStage P) (old new : CellState T)
        (result : Result (ThePoll O) TheError)
        → PollsCell there made P.moves waker call old result next new
        → IsSome old.value → new.value ≡ old.value }
    ensures inserts { (waker : ℕ) (call next : CallStage T) (old new : CellState T)
        (result : Result (ThePoll (Result Unit T)) TheError)
        → PollsInsert waker call old result next new → IsSome old.value → new.value ≡ old.value }
    ensures alone { (there : O) (made : V → Outcome T O) (waker : ℕ) (call next : Option P) (old new : CellState T)
        (result : Result (ThePoll O) TheError)
        → PollsMut there made P.moves waker call old result next new
        → IsSome old.value → new.value ≡ old.value }
{}

/// A lazy cell makes one attempt. One that was made goes on as it stands: a poll leaves it alone, or polls it once, and then
/// it is what that left of it, or done. One that is done stays so. That a cancel leaves it alone the clause of the cancel says.
pub fn one_attempt_is_driven<T, P: Polled<Output = T>, F: FnOnce() -> P>()
    ensures calls { (waker : ℕ) (call next : CallStage Unit) (old new : LazyState T P F)
        (result : Result (ThePoll Unit) TheError) (stored : P)
        → PollsLazy F.post P.moves waker call old result next new
        → old.attempt ≡ Running stored → IsDriven P.moves waker stored new.attempt }
    ensures done { (waker : ℕ) (call next : CallStage Unit) (old new : LazyState T P F)
        (result : Result (ThePoll Unit) TheError)
        → PollsLazy F.post P.moves waker call old result next new
        → old.attempt ≡ Done → (new.attempt ≡ Done) × (new.value ≡ old.value) }
    ensures value { (waker : ℕ) (call next : CallStage Unit) (old new : LazyState T P F)
        (result : Result (ThePoll Unit) TheError)
        → PollsLazy F.post P.moves waker call old result next new
        → IsSome old.value → (new.attempt ≡ old.attempt) × (new.value ≡ old.value) }
    ensures alone { (waker : ℕ) (is_over next : Bool) (old new : LazyState T P F)
        (result : Result (ThePoll Unit) TheError) (stored : P)
        → PollsLazyMut F.post P.moves waker is_over old result next new
        → old.attempt ≡ Running stored → IsDriven P.moves waker stored new.attempt }
{}
