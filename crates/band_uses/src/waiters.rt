//! Waiters in a line.
ghost use Rattle.std.specs.Prelude.{◌≡◌, ◌*◌, ◌+◌, ◌≤◌, [], length, drop, IsSome, IfOk, OnOk, Some, MatchOption};
ghost use Rattle.band_line.specs.Arena.{KeepsOthers};
ghost use Rattle.band_line.specs.Visits.{Visits};
ghost use Rattle.band_line.specs.WaitList.{waiter_at, first_value, detached};

use band_base::Steps;
use band_line::{WaitList, WaiterId};
use std::alloc::{AllocError, Global};
use std::sync::ledger::Ledger;

/// A node is asked in vain.
pub fn stays<L: Ledger>(list: &mut WaitList<u64>, id: WaiterId, steps: &mut Steps<L>)
    requires { IsSome (waiter_at id list.old) }
    ensures same { list.new ≡ list.old }
    ensures visits { steps.new ≡ steps.old + 1 }
{
    match list.unlink_waiter(id, |_| false, steps) {
        Some(_) => unreachable!(),
        None => {}
    }
}

/// A node leaves the line and the list, and its value is the answer.
pub fn leaves<L: Ledger>(list: &mut WaitList<u64>, id: WaiterId, steps: &mut Steps<L>) -> u64
    requires { IsSome (waiter_at id list.old) }
    ensures value { waiter_at id list.old ≡ Some result }
    ensures linked { list.new.linked ≡ (detached id list.old).linked }
    ensures others { KeepsOthers id list.old.nodes list.new.nodes }
    ensures room { list.new.nodes.spare ≡ list.old.nodes.spare + 1 }
    ensures visits { Visits 2 5 steps.old steps.new }
{
    match list.unlink_waiter(id, |_| true, steps) {
        Some(_) => list.remove_unlinked_waiter(id, steps),
        None => unreachable!(),
    }
}

/// The first leaves, if anybody waits, and its value is the answer.
pub fn first_leaves<L: Ledger>(list: &mut WaitList<u64>, steps: &mut Steps<L>) -> Option<u64>
    ensures value { MatchOption result (list.old.linked ≡ []) (λ left. first_value list.old ≡ Some left) }
    ensures linked { list.new.linked ≡ drop 1 list.old.linked }
    ensures visits { MatchOption result (steps.new ≡ steps.old) (λ _. Visits 2 4 steps.old steps.new) }
{
    let first = list.first()?;
    match list.unlink_first_waiter(|_| true, steps) {
        Some(_) => Some(list.remove_unlinked_waiter(first, steps)),
        None => unreachable!(),
    }
}

/// All leave from the front on.
pub fn all_leave<L: Ledger>(list: &mut WaitList<u64>, steps: &mut Steps<L>)
    ensures empty { list.new.linked ≡ [] }
    ensures visits { Visits (2 * length list.old.linked) (4 * length list.old.linked) steps.old steps.new }
{
    while let Some(_) = first_leaves(list, steps) {}
}

/// Three wait. The one in the middle is asked twice, and leaves the second time. Then the others leave.
pub fn three_wait<L: Ledger>(alloc: Global, steps: &mut Steps<L>) -> Result<u64, AllocError>
    ensures value { IfOk result (λ left. left ≡ 2) }
    ensures visits { OnOk result (Visits 10 20 steps.old steps.new) }
{
    let mut list = WaitList::new(alloc);
    list.reserve(3)?;
    list.push_back(1, steps);
    let middle = list.push_back(2, steps);
    list.push_back(3, steps);
    stays(&mut list, middle, steps);
    let left = leaves(&mut list, middle, steps);
    all_leave(&mut list, steps);
    Ok(left)
}
