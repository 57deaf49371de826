//! What the calls of all cells share: a call asks for the permit, and ends.
ghost use Rattle.std.specs.Prelude.{◌≡◌, ◌≢◌, IsErrOf};
ghost use Rattle.band_sem.specs.Request as stages;
ghost use Rattle.band_sem.specs.Semaphore.{IsLike, given_back};
ghost use Rattle.band_sem.specs.Whole.{IsWhole};
ghost use Rattle.band_once.specs.Claims.{Nothing, Awaits, Has, IsCounted, KeepsCounted, claim_of, claim_after};
ghost use Rattle.band_once.specs.Calls.{IsForOne, Asks, Requests, Leaves, init_of, told};

use band_base::{Poll, PollError, Polled, Steps, Waker};
use band_sem::{Acquire, Semaphore, SemaphorePermit};
use std::mem;
use std::sync::ledger::Ledger;

/// What a call has come to, with the caller's state or value in hand.
pub enum CallStage<P> {
    /// It was not polled yet.
    NotPolled(P),
    /// It asked for the permit.
    Waiting(Acquire, P),
    /// It holds the permit, and its state is polled.
    Driving(SemaphorePermit, P),
    /// It is over.
    Finished,
}

/// What asking for the permit gave.
pub enum Asked<P> {
    /// The value was there before anything was asked for.
    NotNeeded(P),
    /// The permit isn't to be had yet.
    Waits,
    /// The permit is held.
    Holds(SemaphorePermit, P),
}

/// What a `PollError` of a driven state is told as.
pub(crate) fn tell(error: PollError) -> PollError
    ensures told { result ≡ told error }
    ensures never_closed { result ≢ PollError.Closed }
{
    match error {
        PollError::NoMemory => PollError::NoMemory,
        _ => PollError::Driven,
    }
}

/// Gives the token back, and the permit passes on.
pub(crate) fn pass<L: Ledger>(permit: &mut Semaphore, token: SemaphorePermit, steps: &mut Steps<L>)
    requires counted { IsCounted (Has token) permit.old }
    requires one { token.count ≡ 1 }
    requires whole { IsWhole 1 permit.old }
    ensures back { IsLike (given_back 1 permit.old) permit.new }
    ensures counted { KeepsCounted (Has token) Nothing permit.old permit.new }
    ensures whole { IsWhole 1 permit.new }
{
    permit.drop_permit(token, steps);
}

impl<P> CallStage<P> {
    /// Takes the stage out.
    fn take(&mut self) -> CallStage<P>
        ensures stage { result ≡ self.old }
        ensures left { self.new ≡ CallStage.Finished }
    {
        mem::replace(self, CallStage::Finished)
    }

    /// Puts a stage where it was taken out.
    pub(crate) fn put(&mut self, stage: CallStage<P>)
        requires { self.old ≡ CallStage.Finished }
        ensures { self.new ≡ stage }
    {
        match mem::replace(self, stage) {
            CallStage::Finished => {}
            _ => unreachable!(),
        }
    }

    /// How a poll begins: asks for the permit, unless the value was there at a first poll.
    pub(crate) fn ask<L: Ledger>(
        &mut self,
        is_there: bool,
        permit: &mut Semaphore,
        waker: Waker,
        steps: &mut Steps<L>,
    ) -> Result<Asked<P>, PollError>
        requires counted { IsCounted (claim_of self.old) permit.old }
        requires one { IsForOne self.old }
        requires whole { IsWhole 1 permit.old }
        ensures never_closed { IsErrOf result PollError.Closed → ⊥ }
        ensures asks { Asks is_there waker.0 self.old permit.old result self.new permit.new }
        ensures counted { KeepsCounted (claim_of self.old) (claim_after result self.new) permit.old permit.new }
        ensures one { IsForOne self.new }
        ensures whole { IsWhole 1 permit.new }
    {
        match self.take() {
            CallStage::NotPolled(init) => {
                if is_there {
                    return Ok(Asked::NotNeeded(init));
                }
                let request = permit.acquire(1);
                self.poll_request(request, init, permit, waker, steps)
            }
            CallStage::Waiting(request, init) => self.poll_request(
                request, init, permit, waker, steps,
            ),
            CallStage::Driving(token, init) => Ok(Asked::Holds(token, init)),
            CallStage::Finished => Err(PollError::Finished),
        }
    }

    fn poll_request<L: Ledger>(
        &mut self,
        mut request: Acquire,
        init: P,
        permit: &mut Semaphore,
        waker: Waker,
        steps: &mut Steps<L>,
    ) -> Result<Asked<P>, PollError>
        requires taken { self.old ≡ CallStage.Finished }
        requires counted { IsCounted (Awaits request) permit.old }
        requires one { request.size ≡ 1 }
        requires whole { IsWhole 1 permit.old }
        requires unfinished { request.stage ≢ stages.Finished }
        ensures never_closed { IsErrOf result PollError.Closed → ⊥ }
        ensures requests { Requests request init waker.0 permit.old result self.new permit.new }
        ensures counted { KeepsCounted (Awaits request) (claim_after result self.new) permit.old permit.new }
        ensures one { IsForOne self.new }
        ensures whole { IsWhole 1 permit.new }
    {
        match request.poll_once(permit, waker, steps) {
            Ok(Poll::Ready(token)) => {
                request.lose();
                Ok(Asked::Holds(token, init))
            }
            Ok(Poll::Pending) => {
                self.put(CallStage::Waiting(request, init));
                Ok(Asked::Waits)
            }
            Err(error) => {
                request.lose();
                self.put(CallStage::NotPolled(init));
                Err(error)
            }
        }
    }

    /// Ends the call: its request ends, or its token goes back. What it had from the caller is handed out.
    pub(crate) fn end<L: Ledger>(self, permit: &mut Semaphore, steps: &mut Steps<L>) -> Option<P>
        requires counted { IsCounted (claim_of self) permit.old }
        requires one { IsForOne self }
        requires whole { IsWhole 1 permit.old }
        ensures init { result ≡ init_of self }
        ensures leaves { Leaves self permit.old permit.new }
        ensures counted { KeepsCounted (claim_of self) Nothing permit.old permit.new }
        ensures whole { IsWhole 1 permit.new }
    {
        match self {
            CallStage::NotPolled(init) => Some(init),
            CallStage::Waiting(request, init) => {
                request.cancel(permit, steps);
                Some(init)
            }
            CallStage::Driving(token, init) => {
                pass(permit, token, steps);
                Some(init)
            }
            CallStage::Finished => None,
        }
    }

    /// Leaves what the call stands for counted, and hands out what it had from the caller.
    pub(crate) fn lose(self) -> Option<P>
        ensures { result ≡ init_of self }
    {
        match self {
            CallStage::NotPolled(init) => Some(init),
            CallStage::Waiting(request, init) => {
                request.lose();
                Some(init)
            }
            CallStage::Driving(token, init) => {
                token.lose();
                Some(init)
            }
            CallStage::Finished => None,
        }
    }
}
