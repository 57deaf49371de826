//! Laws of who is registered.
ghost use Rattle.std.specs.Prelude.{◌≡◌, ◌≢◌, ◌≤◌, ◌<◌, ◌+◌, ◌++◌, ◌∷◌, [], ℕ, true, false, List, Option, Some, None, Result, replicate};
ghost use Rattle.band_base.specs.declared.poll.Poll.{Poll as ThePoll};
ghost use Rattle.band_base.specs.declared.poll.PollError.{PollError as TheError};
ghost use Rattle.band_base.specs.declared.waker.Waker.{Waker as TheWaker};
ghost use Rattle.band_phaser.specs.Laws.{CountsAll, Yields};
ghost use Rattle.band_phaser.specs.Phaser.{PhaserState, PhaserWaitState, Participant, PollsParticipant, IsPendingFor, Batch, NextGives, IsCounted, is_outstanding, new_phaser, next_phase, is_over, settled, arrived, withdrawn, with_parties, without_parties, closed_after};
ghost use Rattle.band_phaser.specs.declared.closed.Closed.{Closed as TheClosed};
ghost use Rattle.band_signal.specs.Waits.{Life, Waits, IsOwn};

/// A phaser counts all that are registered, and as outstanding those whose pending phase is not the current one. Each
/// call keeps it so. A wake that is taken, a cancel and a poll of a `PhaserWait` change the waits alone.
pub fn parties_are_counted()
    ensures new { (number phase : ℕ) → CountsAll [] (new_phaser number phase) }
    ensures register { (n : ℕ) (parties : List (Option ℕ)) (phaser : PhaserState) → CountsAll parties phaser
        → CountsAll (replicate n None ++ parties) (with_parties n phaser) }
    ensures arrive { (before after : List (Option ℕ)) (pending : Option ℕ) (phaser : PhaserState)
        → CountsAll (before ++ pending ∷ after) phaser
        → CountsAll (before ++ Some phaser.phase ∷ after) (arrived pending phaser) }
    ensures leave { (before after : List (Option ℕ)) (pending : Option ℕ) (phaser : PhaserState)
        → CountsAll (before ++ pending ∷ after) phaser
        → CountsAll (before ++ after) (withdrawn pending phaser) }
    ensures withdraw { (n : ℕ) (parties : List (Option ℕ)) (phaser : PhaserState)
        → CountsAll (replicate n None ++ parties) phaser
        → CountsAll parties (without_parties n phaser) }
    ensures told { (before after : List (Option ℕ)) (pending : Option ℕ) (phaser : PhaserState)
        → CountsAll (before ++ pending ∷ after) phaser
        → is_outstanding phaser.phase pending ≡ true
        → CountsAll (before ++ None ∷ after) phaser }
    ensures close { (parties : List (Option ℕ)) (phaser : PhaserState) → CountsAll parties phaser
        → CountsAll parties (closed_after phaser) }
    ensures poll { (before after : List (Option ℕ)) (wait wait' : PhaserWaitState) (party party' : Participant)
        (waker : TheWaker) (result : Result (ThePoll (Result ℕ TheClosed)) TheError) (old new : PhaserState)
        → CountsAll (before ++ party.pending ∷ after) old
        → IsPendingFor wait.life wait.observed party.pending
        → PollsParticipant wait.life wait party waker old result wait' party' new
        → CountsAll (before ++ party'.pending ∷ after) new }
    ensures waits { (parties : List (Option ℕ)) (phaser : PhaserState) (waits : Waits) → CountsAll parties phaser
        → CountsAll parties (record phaser { waits = waits }) }
{}

/// A wait that is registered stays so across what the calls of participants and `close` make of a phaser, or its phase is
/// over by them: unless the next phase is again the one that it observed.
pub fn registrations_stand()
    ensures settle { (observed : ℕ) (life : Life) (old : PhaserState) → IsOwn (is_over observed old) life old.waits
        → next_phase old.phase ≢ observed → IsOwn (is_over observed (settled old)) life (settled old).waits }
    ensures close { (observed : ℕ) (life : Life) (old : PhaserState) → IsOwn (is_over observed old) life old.waits
        → IsOwn (is_over observed (closed_after old)) life (closed_after old).waits }
{}

/// Whoever is registered is counted, as the calls of a participant and of a batch require.
pub fn each_is_counted()
    ensures participant { (before after : List (Option ℕ)) (pending : Option ℕ) (phaser : PhaserState)
        → CountsAll (before ++ pending ∷ after) phaser → IsCounted pending phaser }
    ensures batch { (n : ℕ) (parties : List (Option ℕ)) (phaser : PhaserState)
        → CountsAll (replicate n None ++ parties) phaser → n ≤ phaser.outstanding }
{}

/// A participant counts once in a phase: that it arrives again changes nothing, since others are outstanding then.
pub fn arrivals_count_once()
    ensures again { (phaser : PhaserState) → 0 < phaser.outstanding → arrived (Some phaser.phase) phaser ≡ phaser }
{}

/// A batch yields as many participants as are left in it, and then none, again and again.
pub fn batches_yield_what_is_left()
    ensures left { (n : ℕ) (first last : Batch) → Yields n first last → n + last.remaining ≡ first.remaining }
    ensures none { (first last : Batch) → NextGives first None last → (first.remaining ≡ 0) × (last ≡ first) }
    ensures all { (n : ℕ) (first last end : Batch) → Yields n first last → NextGives last None end
        → n ≡ first.remaining }
{}
