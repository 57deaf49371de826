//! The player: one call after another on named objects.
ghost use Rattle.std.proofs.Props.{props};
ghost use Rattle.band_player.specs.Kept.{StandsForSome};

use crate::table::Table;
use crate::{Call, Reply};
use band_base::{Steps, Waker};
use std::alloc::{AllocError, Global};
use std::sync::ledger::Ledger;

/// Named objects, and the requests and permits that scripts made of them. Dropping it loses the tokens inside.
pub struct Player {
    alloc: Global,
    table: Table,
    ghost sound: { StandsForSome table } by { Prim.hlevel props },
}

impl Player {
    ghost use Rattle.std.specs.Prelude.{◌≡◌, [], ◌∷◌, IfOk, OnOk, OnErr, IsOk, MatchOption};
    ghost use Rattle.band_player.specs.Player.{StandsFor, Follows, Works, Stays, KeepsLaws, TakesNoMemory, VisitsJoiners, wakers_left, load_of};
    ghost use Rattle.band_sem.specs.Visits.{Pays};
    ghost use Rattle.band_script.specs.Call.{ForReaders};

    /// No name.
    pub fn new(alloc: Global) -> Player
        ensures start { StandsFor result [] }
        ensures wakers { wakers_left result ≡ [] }
        ensures load { load_of result ≡ 0 }
    {
        Player {
            alloc,
            table: Table::new(alloc),
        }
    }

    /// Runs one line of a script.
    #[tactic(auto, using(crate::proofs::Lawful::keeps_laws))]
    pub fn step<L: Ledger>(
        &mut self,
        call: &Call,
        steps: &mut Steps<L>,
    ) -> Result<Reply, AllocError>
        // No waker of the step before is left.
        requires quiet { wakers_left self.old ≡ [] }
        // A lock is made for one reader at least.
        requires readers { ForReaders call.now }
        ensures follows { IfOk result (λ reply. Follows call.now self.old reply self.new) }
        ensures err { OnErr result (Stays self.old self.new × (wakers_left self.new ≡ [])) }
        // Want of memory comes in the place of neither a refusal nor `none`.
        ensures works { OnErr result (Works call.now self.old) }
        ensures succeeds { TakesNoMemory call.now → IsOk result }
        ensures lawful { KeepsLaws self.new }
        ensures visits { Pays (load_of self.old) (load_of self.new) steps.old steps.new }
        ensures joins { OnOk result (VisitsJoiners call.now self.old steps.old steps.new) }
    {
        self.table.run(self.alloc, call, steps)
    }

    /// Takes the next waker of the last step, in the order of those that it granted or ended.
    pub fn take_wake(&mut self) -> Option<Waker>
        ensures woken { MatchOption result
            ((wakers_left self.old ≡ []) × (wakers_left self.new ≡ []))
            (λ waker. wakers_left self.old ≡ waker.0 ∷ wakers_left self.new) }
        ensures state { Stays self.old self.new }
        ensures load { load_of self.new ≡ load_of self.old }
    {
        self.table.take_wake()
    }
}

impl Drop for Player {
    fn drop(self) {
        let Player { alloc: _, table } = self;
        table.lose();
    }
}
