//! The waits that are registered, and the wakers to wake.
ghost use Rattle.std.specs.Prelude.{◌≡◌, ◌≤◌, ◌+◌, OnOk, None, IsSome, false, is_ok, if◌then◌else◌};
ghost use Rattle.std.specs.Option.{ForSome};
ghost use Rattle.band_line.specs.Arena.{value_at};
ghost use Rattle.band_signal.specs.Waits.{no_waits, all_woken, TakesWake, IsOwn, LeavesOthers, life_of, cancelled, visits_out};
ghost use Rattle.band_signal.specs.Kept.WaitSet.{Registers};

use band_base::{Steps, WakeLine, Waker};
use band_line::{WakerSet, WakerToken};
use std::alloc::{AllocError, Global};
use std::marker::Model;
use std::sync::ledger::Ledger;

/// The wakers of waits, each under a token, with room for the wake of each.
#[derive(Drop)]
pub struct WaitSet {
    wakers: WakerSet,
    wakes: WakeLine,
}

impl Model for WaitSet {
    ghost use Rattle.std.specs.Prelude.{◌≤◌};
    ghost use Rattle.band_line.specs.Arena.{occupied_len};
    ghost use Rattle.band_signal.specs.Waits.{Waits};

    ghost Value = { Waits };

    ghost view = { λ w. record { set = w.wakers; wakes = w.wakes.wakers } };

    ghost invariant = { λ w. occupied_len w.wakers ≤ w.wakes.spare };
}

impl WaitSet {
    /// Nobody waits, and nobody is to be woken.
    pub fn new(alloc: Global) -> WaitSet
        ensures { result ≡ no_waits }
    {
        WaitSet {
            wakers: WakerSet::new(alloc),
            wakes: WakeLine::new(alloc),
        }
    }

    /// Wakes all that are registered. It takes no memory.
    pub fn wake_all(&mut self)
        ensures { self.new ≡ all_woken self.old }
    {
        self.wakers.take_all(&mut self.wakes);
    }

    /// Takes the oldest waker to wake, if there is one.
    pub fn take_wake(&mut self) -> Option<Waker>
        ensures { TakesWake self.old result self.new }
    {
        self.wakes.take_wake()
    }

    /// Leaves a waker: in place of the one under the token, or under a new token, for which it may take memory.
    pub fn register<L: Ledger>(
        &mut self,
        token: &mut Option<WakerToken>,
        waker: Waker,
        steps: &mut Steps<L>,
    ) -> Result<(), AllocError>
        requires { ForSome token.old (λ slot. IsSome (value_at slot self.old.set)) }
        ensures registers { Registers token.old waker self.old result token.new self.new }
        ensures own { IsOwn false (life_of token.new) self.new }
        ensures others { LeavesOthers (life_of token.old) self.old self.new }
        ensures visits { steps.new ≡ steps.old + (if is_ok result then 1 else 0) }
    {
        if token.is_none() {
            reserve_wake(&mut self.wakes, self.wakers.len())?;
        }
        self.wakers.register(token, waker, steps)?;
        Ok(())
    }

    /// Takes the registration under a token out, and the token is spent.
    pub fn unregister<L: Ledger>(&mut self, token: &mut Option<WakerToken>, steps: &mut Steps<L>)
        requires { ForSome token.old (λ slot. IsSome (value_at slot self.old.set)) }
        ensures state { self.new ≡ cancelled false (life_of token.old) self.old }
        ensures token { token.new ≡ None }
        ensures others { LeavesOthers (life_of token.old) self.old self.new }
        ensures visits { steps.new ≡ steps.old + visits_out false (life_of token.old) }
    {
        self.wakers.unregister(token, steps);
    }
}

/// Makes room for the wake of one more than `registered`.
fn reserve_wake(wakes: &mut WakeLine, registered: u64) -> Result<(), AllocError>
    ensures wakers { wakes.new.wakers ≡ wakes.old.wakers }
    ensures room { OnOk result (registered + 1 ≤ wakes.new.spare) }
    ensures no_less { wakes.old.spare ≤ wakes.new.spare }
{
    match registered.checked_add(1) {
        Some(wanted) => wakes.reserve(wanted),
        None => Err(AllocError),
    }
}
