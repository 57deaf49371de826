//! Laws of scripts.
ghost use Rattle.std.specs.List.{AllByRecursion};
ghost use Rattle.std.specs.Prelude.{◌≡◌, List, [], ◌++◌, ℕ, true, false, pos, ◌+ℤ◌};
ghost use Rattle.band_balance.specs.Laws.{EndsAs, IsExclusive, IsWithin};
ghost use Rattle.band_balance.specs.Settled.{HeadWaits};
ghost use Rattle.band_script.specs.Call.{ForReaders};
ghost use Rattle.band_script.specs.declared.call.Call.{Call as TheCall};
ghost use Rattle.band_rules.specs.Bounds.{HasNumbers};
ghost use Rattle.band_rules.specs.Closing.{is_closed, closed_from};
ghost use Rattle.band_rules.specs.Joined.{GrantedInTurn, StandInTurn};
ghost use Rattle.band_rules.specs.Permits.{brought_from, object_named, permits_of, removed_from};
ghost use Rattle.band_rules.specs.Plan.{plan};
ghost use Rattle.band_rules.specs.Script.{calls_of, state_after};
ghost use Rattle.band_rules.specs.State.{Named};
ghost use Rattle.band_rules.specs.Step.{step};
ghost use Rattle.band_rules.specs.Woken.{EachGrantsAFront, RefusesWhole, WakesWhoIsTold, may_grant, may_wake};

/// After any calls, what an object was made with and what was released to it is what is free, granted and held of it, and
/// what was reduced, drained and forgotten.
pub fn permits_are_kept()
    ensures { (calls : List TheCall) → AllByRecursion ForReaders calls → (name : List ℕ)
        → permits_of (object_named name (state_after calls)) +ℤ pos (removed_from name [] calls)
        ≡ pos (brought_from name [] calls) }
{}

/// The calls of a script make locks for one reader at least.
pub fn locks_are_for_readers()
    ensures { (lines : List (List ℕ)) → AllByRecursion ForReaders (calls_of lines) }
{}

/// After any calls, a held or granted write excludes every other held or granted entry of its lock, and a mutex has at most one.
pub fn writes_exclude()
    ensures { (calls : List TheCall) → AllByRecursion ForReaders calls
        → AllByRecursion (λ (named : Named). IsExclusive named.object) (state_after calls) }
{}

/// After any calls, the first that waits in a line asks for more than is free.
pub fn heads_wait()
    ensures { (calls : List TheCall)
        → AllByRecursion (λ (named : Named). HeadWaits named.object.line.free named.object.line.waiting)
        (state_after calls) }
{}

/// After any calls, of an object that is not closed nobody is ended, and of a closed one, which is a semaphore, nobody waits.
pub fn who_waits_is_ended()
    ensures { (calls : List TheCall)
        → AllByRecursion (λ (named : Named). EndsAs named.object.closed named.object) (state_after calls) }
{}

/// What is closed after any calls is closed after all that follow. An object is closed just where a `close` of it was
/// answered `ok`: no other call closes it, and none opens it again.
pub fn closing_is_for_good()
    ensures stays { (calls more : List TheCall) → (name : List ℕ)
        → is_closed name (state_after calls) ≡ true → is_closed name (state_after (calls ++ more)) ≡ true }
    ensures by_close { (calls : List TheCall) → (name : List ℕ)
        → is_closed name (state_after calls) ≡ closed_from name [] calls }
{}

/// The numbers in the calls of a script are below 2 to the 64th.
pub fn numbers_fit()
    ensures { (lines : List (List ℕ)) → AllByRecursion HasNumbers (calls_of lines) }
{}

/// After any calls with such numbers, what is granted and held of an object is at most the largest count, also with what is
/// free, and no more than the largest count is owed.
pub fn no_more_than_all()
    ensures { (calls : List TheCall) → AllByRecursion ForReaders calls → AllByRecursion HasNumbers calls
        → AllByRecursion (λ (named : Named). IsWithin named.object) (state_after calls) }
{}

/// After any calls, those in a line stand in the order in which they joined it, those that were granted first. So whoever was
/// granted from a line joined it before everyone who waits in it still.
pub fn lines_stand_in_turn()
    ensures stand { (calls : List TheCall)
        → AllByRecursion (λ (named : Named). StandInTurn calls named.object.line) (state_after calls) }
    ensures granted { (calls : List TheCall)
        → AllByRecursion (λ (named : Named). GrantedInTurn calls named.object.line) (state_after calls) }
{}

/// A call after any calls wakes those that waited before it and are granted or ended after it, in the order of their line, each once
/// and by the waker that the line keeps for it.
pub fn wakes_name_who_is_told()
    ensures { (calls : List TheCall) → (call : TheCall)
        → WakesWhoIsTold (state_after calls) (step call (state_after calls)) }
{}

/// A call after any calls wakes nobody, unless it is a release, a drop, a downgrade or a close.
pub fn only_giving_back_and_closing_wake()
    ensures { (calls : List TheCall) → (call : TheCall) → may_wake call ≡ false
        → (step call (state_after calls)).woken ≡ [] }
{}

/// Where a call after any calls is a release, a drop or a downgrade, only the request that a drop cancels leaves a line, and
/// those that it grants stood in front of those that wait still and follow those granted before. It grants nobody where permits
/// are owed still: what comes back pays them first.
pub fn a_front_is_granted()
    ensures { (calls : List TheCall) → (call : TheCall) → may_grant call ≡ true
        → EachGrantsAFront (plan call (state_after calls)) (state_after calls)
        (step call (state_after calls)).state }
{}

/// A refused call changes nothing and wakes nobody, in any state.
pub fn refusals_change_nothing()
    ensures { (state : List Named) → (call : TheCall) → RefusesWhole state (step call state) }
{}
