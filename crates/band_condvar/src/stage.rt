//! What a wait has come to.
ghost use Rattle.std.specs.Prelude.{◌≡◌, ◌+◌, ◌++◌, ◌≤◌, false, IsSome, IsErrOf, if◌then◌else◌};
ghost use Rattle.band_balance.specs.Line.{is_served};
ghost use Rattle.band_base.specs.declared.poll.Poll.TheVariants as poll;
ghost use Rattle.band_signal.specs.WaitQueue.{place_at};
ghost use Rattle.band_condvar.specs.Condvar.{IsCondvar, is_queued, one_notified, AllStay};
ghost use Rattle.band_condvar.specs.declared.stage.Stage.TheVariants as stages;
ghost use Rattle.band_condvar.specs.Kept.Queue.{HasRoom};
ghost use Rattle.band_condvar.specs.Kept.Stage.{stage_of, slot_of, Fits, AcquireVisits};
ghost use Rattle.band_condvar.specs.Waits.{Enqueue, Registered, IsHere, woken_by, LeavesMutex, IsRegistered, monitor, Registers, Leaves, Reacquires, PollsAt, Acquires, LeavesOthers, OthersStay, LetsGo, GivesGuard, has_guard, cancelled, has_turn, PollVisits, CancelVisits, unlock_visits};
ghost use Rattle.band_line.specs.Visits.{Visits};
ghost use Rattle.band_sem.specs.Request.{Joined};
ghost use Rattle.band_sem.specs.Laws.{KeepsOrder};
ghost use Rattle.band_sem.specs.Semaphore.{IsLawful, IsOwn};
ghost use Rattle.band_sem.specs.Whole.{IsWhole};

use crate::place::Place;
use crate::queue::Queue;
use band_base::{Poll, PollError, Steps, Waker};
use band_line::WaiterId;
use band_lock::{LockGuard, LockRequest, MutexState};
use std::mem;
use std::sync::ledger::Ledger;

pub(crate) enum Stage {
    /// It has the guard that it was made with.
    Enqueue(LockGuard),
    /// It is in the condition variable.
    Registered(WaiterId),
    /// It left the condition variable, and asks for the mutex again.
    Reacquiring {
        request: LockRequest,
        has_baton: bool,
    },
    Finished,
}

/// What a poll leaves of a wait, and what it answers.
pub(crate) struct Polled {
    pub(crate) next: Stage,
    pub(crate) answer: Result<Poll<LockGuard>, PollError>,
}

impl Stage {
    /// Polls a wait.
    pub(crate) fn poll<L: Ledger>(
        self,
        queue: &mut Queue,
        m: &mut MutexState,
        waker: Waker,
        steps: &mut Steps<L>,
    ) -> Polled
        requires fits { Fits m.old.number self }
        requires here { IsHere (stage_of self) queue.old m.old }
        ensures polls { PollsAt (stage_of self) m.old.number waker (monitor queue.old m.old)
            result.answer (stage_of result.next) (monitor queue.new m.new) }
        // Its mutex is never closed.
        ensures never_closed { IsErrOf result.answer PollError.Closed → ⊥ }
        ensures fits { Fits m.old.number result.next }
        ensures guard { GivesGuard result.answer m.new }
        ensures goes_on { result.answer ≡ Ok poll.Pending → has_guard (stage_of result.next) ≡ false }
        ensures here { IsHere (stage_of result.next) queue.new m.new }
        ensures others { LeavesOthers (stage_of self) queue.old queue.new }
        ensures number { m.new.number ≡ m.old.number }
        ensures order { KeepsOrder m.old.line m.new.line }
        ensures sound { IsCondvar queue.new }
        ensures lawful { IsLawful m.new }
        ensures whole { IsWhole 1 m.new }
        ensures visits { PollVisits (stage_of self) m.old m.new steps.old steps.new }
    {
        match self {
            Stage::Enqueue(guard) => enqueue(guard, queue, m, waker, steps),
            stage => stage.acquire(queue, m, waker, steps),
        }
    }

    /// Has the guard, or polls for it. Room that was made is still there.
    pub(crate) fn acquire<L: Ledger>(
        self,
        queue: &mut Queue,
        m: &mut MutexState,
        waker: Waker,
        steps: &mut Steps<L>,
    ) -> Polled
        requires fits { Fits m.old.number self }
        requires here { IsHere (stage_of self) queue.old m.old }
        ensures acquires { Acquires (stage_of self) m.old.number waker (monitor queue.old m.old)
            result.answer (stage_of result.next) (monitor queue.new m.new) }
        ensures never_closed { IsErrOf result.answer PollError.Closed → ⊥ }
        ensures fits { Fits m.old.number result.next }
        ensures guard { GivesGuard result.answer m.new }
        ensures goes_on { result.answer ≡ Ok poll.Pending → has_guard (stage_of result.next) ≡ false }
        ensures here { IsHere (stage_of result.next) queue.new m.new }
        ensures others { LeavesOthers (stage_of self) queue.old queue.new }
        ensures room { HasRoom queue.old → HasRoom queue.new }
        ensures number { m.new.number ≡ m.old.number }
        ensures order { KeepsOrder m.old.line m.new.line }
        ensures sound { IsCondvar queue.new }
        ensures lawful { IsLawful m.new }
        ensures whole { IsWhole 1 m.new }
        ensures visits { AcquireVisits (stage_of self) steps.old steps.new }
    {
        match self {
            Stage::Enqueue(guard) => {
                touch(queue, m);
                Polled::finished(Ok(Poll::Ready(guard)))
            }
            Stage::Registered(id) => match queue.look(id, waker, steps) {
                Some(has_baton) => leave(id, has_baton, queue, m, waker, steps),
                None => {
                    touch(queue, m);
                    Polled {
                        next: Stage::Registered(id),
                        answer: Ok(Poll::Pending),
                    }
                }
            },
            Stage::Reacquiring { request, has_baton } => {
                reacquire(request, has_baton, queue, m, waker, steps)
            }
            Stage::Finished => {
                touch(queue, m);
                Polled::finished(Err(PollError::Finished))
            }
        }
    }

    /// Whether a poll has the guard, where it finds memory to wait again.
    pub(crate) fn has_turn<L: Ledger>(
        &self,
        queue: &mut Queue,
        m: &MutexState,
        steps: &mut Steps<L>,
    ) -> bool
        requires fits { Fits m.now.number self.now }
        requires here { IsHere (stage_of self.now) queue.old m.now }
        ensures turn { result ≡ has_turn (stage_of self.now) (monitor queue.old m.now) }
        ensures same { queue.new ≡ queue.old }
        ensures visits { Visits 0 1 steps.old steps.new }
    {
        match self {
            Stage::Enqueue(_) => true,
            Stage::Registered(id) => !queue.is_queued(*id, steps) && is_free(m),
            Stage::Reacquiring { request, .. } => request.is_granted(m, steps),
            Stage::Finished => false,
        }
    }

    /// Ends a wait.
    pub(crate) fn cancel<L: Ledger>(
        self,
        queue: &mut Queue,
        m: &mut MutexState,
        steps: &mut Steps<L>,
    )
        requires fits { Fits m.old.number self }
        requires here { IsHere (stage_of self) queue.old m.old }
        ensures state { queue.new ≡ cancelled (stage_of self) queue.old }
        ensures lets_go { LetsGo (stage_of self) m.old m.new }
        ensures wakes { queue.new.wakes
            ≡ queue.old.wakes ++ woken_by (stage_of self) queue.old }
        ensures leaves { LeavesMutex (stage_of self) m.old m.new }
        ensures others { OthersStay (stage_of self) queue.old queue.new }
        ensures number { m.new.number ≡ m.old.number }
        ensures order { KeepsOrder m.old.line m.new.line }
        ensures sound { IsCondvar queue.new }
        ensures lawful { IsLawful m.new }
        ensures whole { IsWhole 1 m.new }
        ensures visits { CancelVisits (stage_of self) m.old m.new steps.old steps.new }
    {
        match self {
            Stage::Enqueue(guard) => {
                queue.touch();
                m.drop_guard(guard, steps);
            }
            Stage::Registered(id) => {
                touch(queue, m);
                let was_chosen = queue.take_out(id, steps);
                hand_on(was_chosen, queue, steps);
            }
            Stage::Reacquiring { request, has_baton } => {
                request.cancel(m, steps);
                hand_on(has_baton, queue, steps);
            }
            Stage::Finished => touch(queue, m),
        }
    }

    /// Ends a wait and leaves what it stands for.
    pub(crate) fn lose(self) {
        match self {
            Stage::Enqueue(guard) => guard.lose(),
            Stage::Reacquiring {
                request,
                has_baton: _,
            } => request.lose(),
            Stage::Registered(_id) => {}
            Stage::Finished => {}
        }
    }
}

impl Polled {
    fn finished(answer: Result<Poll<LockGuard>, PollError>) -> Polled
        ensures next { result.next ≡ stages.Finished }
        ensures answer { result.answer ≡ answer }
    {
        Polled {
            next: Stage::Finished,
            answer,
        }
    }
}

/// Puts a wait in the place of one that is finished.
pub(crate) fn put(place: &mut Stage, stage: Stage)
    requires { place.old ≡ stages.Finished }
    ensures { place.new ≡ stage }
{
    match mem::replace(place, stage) {
        Stage::Finished => {}
        _ => unreachable!(),
    }
}

/// Registers a wait in room that was made, and then gives its guard back.
pub(crate) fn register<L: Ledger>(
    guard: LockGuard,
    queue: &mut Queue,
    m: &mut MutexState,
    waker: Waker,
    steps: &mut Steps<L>,
) -> WaiterId
    requires number { guard.of ≡ m.old.number }
    requires held { guard.count ≤ m.old.held }
    requires room { HasRoom queue.old }
    ensures registers { Registers guard waker (monitor queue.old m.old)
        (Ok poll.Pending) (Registered result) (monitor queue.new m.new) }
    ensures here { IsSome (place_at result queue.new) }
    ensures others { LeavesOthers (Enqueue guard) queue.old queue.new }
    ensures number { m.new.number ≡ m.old.number }
    ensures order { KeepsOrder m.old.line m.new.line }
    ensures sound { IsCondvar queue.new }
    ensures lawful { IsLawful m.new }
    ensures whole { IsWhole 1 m.new }
    ensures visits { Visits 0 (unlock_visits m.old m.new + 2) steps.old steps.new }
{
    let id = queue.join(waker, steps);
    m.drop_guard(guard, steps);
    id
}

/// The first poll of a wait.
fn enqueue<L: Ledger>(
    guard: LockGuard,
    queue: &mut Queue,
    m: &mut MutexState,
    waker: Waker,
    steps: &mut Steps<L>,
) -> Polled
    requires number { guard.of ≡ m.old.number }
    requires held { guard.count ≤ m.old.held }
    ensures registers { Registers guard waker (monitor queue.old m.old)
        result.answer (stage_of result.next) (monitor queue.new m.new) }
    ensures never_closed { IsErrOf result.answer PollError.Closed → ⊥ }
    ensures fits { Fits m.old.number result.next }
    ensures guard { GivesGuard result.answer m.new }
    ensures goes_on { result.answer ≡ Ok poll.Pending → has_guard (stage_of result.next) ≡ false }
    ensures here { IsHere (stage_of result.next) queue.new m.new }
    ensures others { LeavesOthers (Enqueue guard) queue.old queue.new }
    ensures number { m.new.number ≡ m.old.number }
    ensures order { KeepsOrder m.old.line m.new.line }
    ensures sound { IsCondvar queue.new }
    ensures lawful { IsLawful m.new }
    ensures whole { IsWhole 1 m.new }
    ensures visits { Visits 0 (unlock_visits m.old m.new + 2) steps.old steps.new }
{
    if queue.reserve().is_err() {
        touch(queue, m);
        return Polled {
            next: Stage::Enqueue(guard),
            answer: Err(PollError::NoMemory),
        };
    }
    let id = register(guard, queue, m, waker, steps);
    Polled {
        next: Stage::Registered(id),
        answer: Ok(Poll::Pending),
    }
}

/// A wait that was called asks for the mutex, and leaves the condition variable unless there is no memory to ask.
fn leave<L: Ledger>(
    id: WaiterId,
    has_baton: bool,
    queue: &mut Queue,
    m: &mut MutexState,
    waker: Waker,
    steps: &mut Steps<L>,
) -> Polled
    requires here { IsSome (place_at id queue.old) }
    requires called { is_queued (place_at id queue.old) ≡ false }
    ensures leaves { Leaves has_baton id m.old.number waker (monitor queue.old m.old)
        result.answer (stage_of result.next) (monitor queue.new m.new) }
    ensures never_closed { IsErrOf result.answer PollError.Closed → ⊥ }
    ensures fits { Fits m.old.number result.next }
    ensures guard { GivesGuard result.answer m.new }
    ensures goes_on { result.answer ≡ Ok poll.Pending → has_guard (stage_of result.next) ≡ false }
    ensures here { IsHere (stage_of result.next) queue.new m.new }
    ensures others { LeavesOthers (Registered id) queue.old queue.new }
    ensures room { HasRoom queue.old → HasRoom queue.new }
    ensures number { m.new.number ≡ m.old.number }
    ensures order { KeepsOrder m.old.line m.new.line }
    ensures sound { IsCondvar queue.new }
    ensures lawful { IsLawful m.new }
    ensures whole { IsWhole 1 m.new }
    ensures visits { Visits 0 3 steps.old steps.new }
{
    let mut request = m.lock();
    match request.poll_once(m, waker, steps) {
        Ok(Poll::Ready(guard)) => {
            request.lose();
            queue.remove(id, steps);
            Polled::finished(Ok(Poll::Ready(guard)))
        }
        Ok(Poll::Pending) => {
            queue.remove(id, steps);
            Polled {
                next: Stage::Reacquiring { request, has_baton },
                answer: Ok(Poll::Pending),
            }
        }
        Err(error) => {
            request.lose();
            queue.touch();
            Polled {
                next: Stage::Registered(id),
                answer: Err(error),
            }
        }
    }
}

/// A wait that left the condition variable asks whether it was granted the mutex.
fn reacquire<L: Ledger>(
    mut request: LockRequest,
    has_baton: bool,
    queue: &Queue,
    m: &mut MutexState,
    waker: Waker,
    steps: &mut Steps<L>,
) -> Polled
    requires fits { Fits m.old.number (stages.Reacquiring request has_baton) }
    requires own { IsOwn (Joined (slot_of request.stage)) 1 m.old }
    ensures reacquires { Reacquires has_baton (slot_of request.stage) m.old.number waker
        (monitor queue.now m.old) result.answer (stage_of result.next) (monitor queue.now m.new) }
    ensures never_closed { IsErrOf result.answer PollError.Closed → ⊥ }
    ensures fits { Fits m.old.number result.next }
    ensures guard { GivesGuard result.answer m.new }
    ensures goes_on { result.answer ≡ Ok poll.Pending → has_guard (stage_of result.next) ≡ false }
    ensures here { IsHere (stage_of result.next) queue.now m.new }
    ensures number { m.new.number ≡ m.old.number }
    ensures order { KeepsOrder m.old.line m.new.line }
    ensures sound { IsCondvar queue.now }
    ensures lawful { IsLawful m.new }
    ensures whole { IsWhole 1 m.new }
    ensures visits { Visits 1 2 steps.old steps.new }
{
    queue.touch();
    match request.poll_once(m, waker, steps) {
        Ok(Poll::Ready(guard)) => {
            request.lose();
            Polled::finished(Ok(Poll::Ready(guard)))
        }
        Ok(Poll::Pending) => Polled {
            next: Stage::Reacquiring { request, has_baton },
            answer: Ok(Poll::Pending),
        },
        Err(error) => Polled {
            next: Stage::Reacquiring { request, has_baton },
            answer: Err(error),
        },
    }
}

/// Hands a baton on to the first in line, if there is one.
fn hand_on<L: Ledger>(has_baton: bool, queue: &mut Queue, steps: &mut Steps<L>)
    ensures state { queue.new ≡ (if has_baton then one_notified queue.old else queue.old) }
    ensures stay { AllStay queue.old queue.new }
    ensures sound { IsCondvar queue.new }
    ensures visits { Visits 0 (if has_baton then 3 else 0) steps.old steps.new }
{
    if has_baton {
        queue.call_first(Place::Chosen, steps);
    } else {
        queue.touch();
    }
}

/// Whether somebody who asks for the mutex has it at once.
fn is_free(m: &MutexState) -> bool
    ensures { result ≡ is_served 1 m.now.line }
{
    m.semaphore().waiting_count() == 0 && m.semaphore().free() >= 1
}

/// Does nothing: a caller that changes nothing learns what holds.
pub(crate) fn touch(queue: &Queue, m: &MutexState)
    ensures sound { IsCondvar queue.now }
    ensures order { KeepsOrder m.now.line m.now.line }
    ensures lawful { IsLawful m.now }
    ensures whole { IsWhole 1 m.now }
{
    queue.touch();
    m.semaphore().held_permits();
}
