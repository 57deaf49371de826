//! What no clause says: that calls succeed.
ghost use Rattle.std.specs.Prelude.{◌≡◌, ◌<◌};
ghost use Rattle.band_script.specs.Call.{ForReaders};

use crate::{Call, Name, Player, Reply};
use band_base::Steps;
use std::alloc::{AllocError, Global};
use std::marker::Brand;
use std::sync::ledger::{Blank, Ledger};
use std::test::Fail;

fn one_step<L: Ledger>(alloc: Global, call: &Call, blank: Blank) -> Result<bool, AllocError>
    requires readers { ForReaders call.now }
    requires name { blank.name ≡ L.name }
    requires parts { blank.parts ≡ L.parts }
    requires some { 0 < blank.parts }
{
    let mut steps = Steps::<L>::new(blank);
    let mut player = Player::new(alloc);
    let reply = player.step(call, &mut steps)?;
    let woken = player.take_wake();
    Ok(matches!(reply, Reply::Done) && woken.is_none())
}

#[test]
fn steps_once(rt: HostRuntime) -> Result<(), Fail> {
    let made = Name::from_word(b"s").ok_or("no name")?;
    let call = Call::Sem { made, n: 1 };
    assert!(rt; one_step::<Brand>(rt.alloc(), &call, Blank::new(1))?);
    Ok(())
}
