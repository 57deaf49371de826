//! Laws of the channel, over every run of steps.
ghost use Rattle.std.specs.Prelude.{◌≡◌, ◌≢◌, ◌≤◌, ◌⊎◌, true, false, List, Some};
ghost use Rattle.std.specs.List.{AllByRecursion};
ghost use Rattle.band_base.specs.declared.waker.Waker.{Waker as TheWaker};
ghost use Rattle.band_oneshot.specs.declared.state.OneshotState.{OneshotState as TheState};
ghost use Rattle.band_oneshot.specs.declared.state.Place.{Place as ThePlace};
ghost use Rattle.band_oneshot.specs.declared.state.SenderStage.TheVariants as sender;
ghost use Rattle.band_oneshot.specs.declared.state.ReceiverStage.TheVariants as receiver;
ghost use Rattle.band_oneshot.specs.declared.step.OneshotStep.{OneshotStep as TheStep};
ghost use Rattle.band_oneshot.specs.declared.step.OneshotStep.TheVariants as steps_of;
ghost use Rattle.band_oneshot.specs.Moves.{MovesMessage, is_place, moves, AddedIsAt, MovesWakerBy, waker_in, Puts, KeepsFoundWords};
ghost use Rattle.band_oneshot.specs.Sound.{IsSound};
ghost use Rattle.band_oneshot.specs.Step.{start, needs, does, after, after_all};
ghost use Rattle.band_oneshot.specs.Words.{is_senders, is_receivers, sender_makes, receiver_makes};

/// A new channel is sound, and every run keeps a sound one sound.
pub fn runs_are_sound()
    ensures start { IsSound start }
    ensures run { (steps : List TheStep) (c : TheState) → IsSound c → IsSound (after_all steps c) }
{}

/// The message goes only from the sender into the channel, back or away, and from the channel to the receiver, and in a run from
/// one place to another at most once.
pub fn messages_move()
    ensures step { (s : TheStep) (c : TheState) → IsSound c → MovesMessage c.message (after s c).message }
    ensures run { (from to : ThePlace) (steps : List TheStep) (c : TheState) → IsSound c
        → is_place from to ≡ false → moves from to steps c ≤ 1 }
{}

/// Once the sender added 1, the message is handed back, with the sender until its final swap, in the channel, received, or
/// gone at a final swap that found the receiver gone.
pub fn an_added_message_is_known()
    ensures { (steps : List TheStep) (c : TheState) → IsSound c → needs steps_of.Add c ≡ true
        → let added = does steps_of.Add c in AddedIsAt (after_all steps added).message steps added }
{}

/// The waker goes only from the receiver into the channel or away, and from the channel to either end. Every other change of
/// it is a put: a waker that is anywhere after a run was there before it, or was put in it.
pub fn wakers_move()
    ensures step { (s : TheStep) (c : TheState) → MovesWakerBy s c.waker (after s c).waker }
    ensures run { (steps : List TheStep) (c : TheState) (w : TheWaker)
        → waker_in (after_all steps c).waker ≡ Some w → (waker_in c.waker ≡ Some w) ⊎ Puts w steps }
{}

/// No step of the sender changes the word `MESSAGE`, or the word `DISCONNECTED` before the receiver has ended. No step of the
/// receiver changes the word `DISCONNECTED` while the sender is idle.
pub fn found_words_stay()
    ensures { (s : TheStep) (c : TheState) → IsSound c → KeepsFoundWords (is_senders s) c (after s c) }
{}

/// What an end may find after steps of the other alone, before it has ended itself.
pub fn an_end_makes()
    ensures sender { (steps : List TheStep) (c : TheState)
        → AllByRecursion (λ s. is_senders s ≡ true) steps → IsSound c → c.receiver ≢ receiver.Ended
        → sender_makes c.word (after_all steps c).word ≡ true }
    ensures receiver { (steps : List TheStep) (c : TheState)
        → AllByRecursion (λ s. is_receivers s ≡ true) steps → IsSound c → c.sender ≢ sender.Ended
        → receiver_makes c.word (after_all steps c).word ≡ true }
{}
