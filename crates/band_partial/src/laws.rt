//! What each move of a partial line stands for: a rule of the line that the partial line stands for.
ghost use Rattle.std.specs.Prelude.{◌≡◌, ℕ, ◌+◌, ◌<◌, ◌≤◌, Bool, false, nat_le, min, List, ◌∷◌, [], length};
ghost use Rattle.band_balance.specs.Line.{Line, AreAlike, open_line, is_served, available, drained, take_permits, give_back, join, poll_granted, poll_waiting, cancel, end_waiting};
ghost use Rattle.band_balance.specs.Settled.{HeadWaits};
ghost use Rattle.band_partial.specs.PartialLine.{Node, PartialLine, AreAlikeParts, AreInOrder, IsSettled, StandsFor, debts, line_of, requests_of};
ghost use Rattle.band_partial.specs.Moves.{open_part, distribute, give_out, pass_on, first_served, first_given, draw, enqueue, owe, leave_new_waker, collect, cancel_request, end_requests, ServesAFront, cleared};
ghost use Rattle.band_partial.specs.Rows.{WorkedRows};

/// At the start all permits are available.
pub fn open_part_is_open()
    ensures { (permits : ℕ) → StandsFor (open_line permits) (open_part permits) }
{}

/// The first that waits asks for more than is free.
pub fn head_waits()
    ensures { (line : Line ℕ) → (part : PartialLine) → StandsFor line part
        → HeadWaits line.free line.waiting }
{}

/// The word alone says what is available, who is served at once, and how many a drain takes.
pub fn word_is_available()
    ensures available { (line : Line ℕ) → (part : PartialLine) → StandsFor line part
        → available line ≡ part.word }
    ensures served { (line : Line ℕ) → (part : PartialLine) → StandsFor line part
        → (size : ℕ) → is_served size line ≡ nat_le size part.word }
    ensures drained { (line : Line ℕ) → (part : PartialLine) → StandsFor line part
        → (n : ℕ) → drained n line ≡ min n part.word }
{}

/// A first poll that is served, a try and a drain lower the word.
pub fn draw_is_taking()
    ensures { (line : Line ℕ) → (part : PartialLine) → StandsFor line part
        → (n : ℕ) → n ≤ part.word → StandsFor (take_permits n line) (draw n part) }
{}

/// A reduction beyond what is available is a debt in front of all, also of a request that has a share.
pub fn owe_is_reducing()
    ensures { (line : Line ℕ) → (part : PartialLine) → StandsFor line part
        → (slot n : ℕ) → StandsFor (take_permits n line) (owe slot n part) }
{}

/// A first poll that is not served joins with what is available as its share.
pub fn enqueue_is_joining()
    ensures { (line : Line ℕ) → (part : PartialLine) → StandsFor line part
        → (slot size waker : ℕ) → is_served size line ≡ false
        → StandsFor (join slot size waker line) (enqueue slot size waker part) }
{}

/// What comes back is given out piece by piece, and grants what a line grants that settles.
pub fn pass_on_is_giving_back()
    ensures { (line : Line ℕ) → (part : PartialLine) → StandsFor line part
        → (n : ℕ) → StandsFor (give_back n line) (pass_on n part) }
{}

/// It is given out node by node, until nothing is available or no node is linked.
pub fn give_out_goes_node_by_node()
    ensures served { (part : PartialLine) → (first : Node) → (rest : List Node) → part.nodes ≡ first ∷ rest
        → first.needed ≤ part.word → give_out (first_served first rest part) ≡ give_out part }
    ensures given { (part : PartialLine) → (first : Node) → (rest : List Node) → part.nodes ≡ first ∷ rest
        → part.word < first.needed → first_given first rest part ≡ give_out part }
    ensures done { (line : Line ℕ) → (part : PartialLine) → StandsFor line part → give_out part ≡ part }
{}

/// A later poll of one that waits.
pub fn leave_new_waker_is_polling_waiting()
    ensures { (line : Line ℕ) → (part : PartialLine) → StandsFor line part
        → (is : ℕ → Bool) → (waker : ℕ)
        → StandsFor (poll_waiting is waker line) (leave_new_waker is waker part) }
{}

/// A later poll of one that was granted.
pub fn collect_is_polling_granted()
    ensures { (line : Line ℕ) → (part : PartialLine) → StandsFor line part
        → (is : ℕ → Bool) → StandsFor (poll_granted is line) (collect is part) }
{}

/// A cancel of any request, whose grant or share goes to debts first.
pub fn cancel_is_cancelling()
    ensures { (line : Line ℕ) → (part : PartialLine) → StandsFor line part
        → (is : ℕ → Bool) → StandsFor (cancel is line) (cancel_request is part) }
{}

/// An end of all that wait, whose shares go to debts first. No debt is made by it.
pub fn end_requests_is_ending()
    ensures ends { (line : Line ℕ) → (part : PartialLine) → StandsFor line part
        → (slot : ℕ) → StandsFor (end_waiting line) (end_requests slot part) }
    ensures nobody { (part : PartialLine) → (slot : ℕ) → requests_of (end_requests slot part).nodes ≡ [] }
    ensures debts { (part : PartialLine) → (slot : ℕ)
        → debts (end_requests slot part).nodes ≤ debts part.nodes }
{}

/// A distribution serves a front, debts before requests, and looks at one node more at most. How many it serves
/// shows in what waits and what is owed afterwards.
pub fn distribution_serves_a_front()
    ensures front { (n : ℕ) → (nodes : List Node) → AreInOrder nodes
        → ServesAFront nodes (distribute n nodes) }
    ensures cleared { (n : ℕ) → (part : PartialLine) → AreInOrder part.nodes
        → length (distribute (part.word + n) part.nodes).served ≡ cleared part (pass_on n part) }
{}

/// What is given out doesn't depend on the order of those granted, in which a body may then keep them.
pub fn give_out_looks_at_no_order()
    ensures line { (one : PartialLine) → (other : PartialLine) → AreAlikeParts one other
        → AreAlike (line_of one) (line_of other) }
    ensures settled { (one : PartialLine) → (other : PartialLine) → AreAlikeParts one other
        → IsSettled one → IsSettled other }
    ensures gives_out { (one : PartialLine) → (other : PartialLine) → AreAlikeParts one other
        → AreAlikeParts (give_out one) (give_out other) }
{}

/// Worked partial lines.
pub fn worked_rows()
    ensures { WorkedRows }
{}
