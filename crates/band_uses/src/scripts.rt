//! A call of a script.
ghost use Rattle.std.specs.Prelude.{◌≡◌, [], IfOk};
ghost use Rattle.band_player.specs.Player.{Follows, ForReaders, wakers_left};

use band_base::Steps;
use band_player::{Call, Player, Reply};
use std::alloc::AllocError;
use std::sync::ledger::Ledger;

/// Runs a call of a script.
pub fn run_call<L: Ledger>(
    player: &mut Player,
    call: &Call,
    steps: &mut Steps<L>,
) -> Result<Reply, AllocError>
    requires quiet { wakers_left player.old ≡ [] }
    requires readers { ForReaders call.now }
    ensures { IfOk result (λ reply. Follows call.now player.old reply player.new) }
{
    player.step(call, steps)
}
