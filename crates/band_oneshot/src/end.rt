//! An end of a channel, and each of its steps.
ghost use Rattle.std.specs.Prelude.{◌≡◌, ◌≢◌, ℕ, true, false, [], ◌∷◌, ◌++◌, Some, None, ◌⊎◌};
ghost use Rattle.std.specs.Arc.{arc_value};
ghost use Rattle.atomic_table.specs.Table.{rest};
ghost use Rattle.band_base.specs.declared.waker.Waker.{Waker as TheWaker};
ghost use Rattle.band_oneshot.specs.declared.state.ReceiverStage.TheVariants as receiver;
ghost use Rattle.band_oneshot.specs.declared.step.OneshotStep.TheVariants as steps;
ghost use Rattle.band_oneshot.specs.declared.view.Held.TheVariants as held;
ghost use Rattle.band_oneshot.specs.declared.view.WakerSlot.TheVariants as slot;
ghost use Rattle.band_oneshot.specs.Kept.Plays.{sender_of, receiver_of, SenderLooks, Adds, Parts, SendsFinally, PartsFinally, ReceiverLooks, PollLooks, CancelLooks, Swaps, Stores, Leaves, Fetches, EndsAwaking, EndsEmpty};
ghost use Rattle.band_oneshot.specs.Kept.Rule.{Slot};
ghost use Rattle.band_oneshot.specs.Runs.{counts_as};
ghost use Rattle.band_oneshot.specs.Sound.{IsWord};
ghost use Rattle.band_oneshot.specs.Words.{sender_makes, receiver_makes};
ghost use Rattle.band_oneshot.specs.Kept.Seats.{IsIdleWord, IsIdle, IsAwaking, Receives, MayWait, MayCancel, IsFresh, MayFetch, SenderSteps, ReceiverSteps};

use crate::rule::{
    AddOne, CancelLook, EndAwaking, EndEmpty, Fetch, Law, Leave, Part, PartFinally, PollLook,
    ReceiverLook, SendFinally, SenderLook, StoreOut, SwapOut,
};
use crate::spent::Spent;
use crate::view::{Held, View};
use crate::word;
use atomic_table::{Seat, Table};
use band_base::Waker;
use std::alloc::Global;
use std::sync::Arc;

// The word of a table is wider than the core's.
pub(crate) const EMPTY: u64 = word::EMPTY as u64;

pub(crate) const RECEIVING: u64 = word::RECEIVING as u64;

pub(crate) const AWAKING: u64 = word::AWAKING as u64;

pub(crate) const MESSAGE: u64 = word::MESSAGE as u64;

pub(crate) const DISCONNECTED: u64 = word::DISCONNECTED as u64;

// The slots of the table.
const MESSAGE_SLOT: usize = 0;

const WAKER_SLOT: usize = 1;

/// One word, a slot for the message and one for the waker.
pub(crate) type Channel<T> = Table<Option<Held<T>>, View<T>, (), Law, Global>;

/// What an end knows, and the slots that it has out.
pub(crate) type EndSeat<T> = Seat<Option<Held<T>>, View<T>>;

/// One of the two ends. To drop it makes no step.
#[derive(Drop)]
pub(crate) struct End<T> {
    pub(crate) channel: Arc<Channel<T>, Global>,
    pub(crate) seat: EndSeat<T>,
    ghost fits: { (seat.table_id ≡ (arc_value channel).shared.table_id)
        × ((arc_value channel).shared.table_id.words ≡ 1) },
}

impl<T: Drop> End<T> {
    /// The sender looks at the word.
    pub(crate) fn sender_load(&mut self) -> u64
        requires { IsIdle self.old.seat.me }
        ensures follows { receiver_makes (sender_of self.old.seat.me.0).word result ≡ true }
        ensures play { SenderLooks self.old.seat.me result self.new.seat.me }
        ensures core { SenderSteps (counts_as steps.SenderLoad result) result
            self.old.seat.me self.new.seat.me }
    {
        self.channel.shared.load::<SenderLook>(&mut self.seat, 0)
    }

    /// The sender puts a message into its slot, which it has out.
    pub(crate) fn put_message(&mut self, message: T)
        requires { self.old.seat.me.1 ≡ (0, None) ∷ [] }
        ensures { self.new.seat.me ≡ (self.old.seat.me.0, (0, Some (held.Message message)) ∷ []) }
    {
        let _ = self
            .channel
            .shared
            .exchange(&mut self.seat, MESSAGE_SLOT, Some(Held::Message(message)));
    }

    /// The sender adds 1, to send the message in its slot.
    pub(crate) fn add(&mut self) -> u64
        requires idle { IsIdle self.old.seat.me }
        requires message { (message : T) × (self.old.seat.me.1 ≡ (0, Some (held.Message message)) ∷ []) }
        ensures words { IsIdleWord result }
        ensures follows { receiver_makes (sender_of self.old.seat.me.0).word result ≡ true }
        ensures play { Adds self.old.seat.me result self.new.seat.me }
        ensures core { SenderSteps (counts_as steps.Add result) result self.old.seat.me self.new.seat.me }
    {
        self.channel
            .shared
            .fetch_add::<AddOne>(&mut self.seat, 0, 1)
    }

    /// The sender changes the lowest bit, to end without a message.
    pub(crate) fn exclusive_or(&mut self) -> u64
        requires { IsIdle self.old.seat.me }
        ensures words { IsIdleWord result }
        ensures follows { receiver_makes (sender_of self.old.seat.me.0).word result ≡ true }
        ensures play { Parts self.old.seat.me result self.new.seat.me }
        ensures core { SenderSteps (counts_as steps.ExclusiveOr result) result
            self.old.seat.me self.new.seat.me }
    {
        self.channel.shared.fetch_xor::<Part>(&mut self.seat, 0, 1)
    }

    /// The sender takes the waker out of its slot, and turns to the message's.
    pub(crate) fn take_waker(&mut self) -> Waker
        requires { (w : TheWaker)
            × (self.old.seat.me.1 ≡ (1, Some (held.Waker w)) ∷ rest self.old.seat.me.1) }
        ensures waker { self.old.seat.me.1 ≡ (1, Some (held.Waker result)) ∷ rest self.old.seat.me.1 }
        ensures seat { self.new.seat.me ≡ (self.old.seat.me.0, rest self.old.seat.me.1 ++ (1, None) ∷ []) }
    {
        let content = self
            .channel
            .shared
            .exchange(&mut self.seat, WAKER_SLOT, None);
        self.seat.turn();
        let Some(Held::Waker(waker)) = content else {
            unreachable!()
        };
        waker
    }

    /// The sender swaps in `MESSAGE`, to send the message in its slot.
    pub(crate) fn send_finally(&mut self) -> u64
        requires awaking { (w : TheWaker) × IsAwaking true w self.old.seat.me }
        requires message { (message : T)
            × (self.old.seat.me.1 ≡ (0, Some (held.Message message)) ∷ rest self.old.seat.me.1) }
        ensures words { (result ≡ AWAKING) ⊎ (result ≡ DISCONNECTED) }
        ensures play { SendsFinally self.old.seat.me result self.new.seat.me }
        ensures core { SenderSteps (counts_as steps.FinalSwap result) result
            self.old.seat.me self.new.seat.me }
    {
        self.channel
            .shared
            .swap::<SendFinally>(&mut self.seat, 0, MESSAGE)
    }

    /// The sender swaps in `DISCONNECTED`.
    pub(crate) fn part_finally(&mut self) -> u64
        requires { (w : TheWaker) × IsAwaking false w self.old.seat.me }
        ensures words { (result ≡ AWAKING) ⊎ (result ≡ DISCONNECTED) }
        ensures play { PartsFinally self.old.seat.me result self.new.seat.me }
        ensures core { SenderSteps (counts_as steps.FinalSwap result) result
            self.old.seat.me self.new.seat.me }
    {
        self.channel
            .shared
            .swap::<PartFinally>(&mut self.seat, 0, DISCONNECTED)
    }

    /// Either end takes the message out of its slot.
    pub(crate) fn take_message(&mut self) -> T
        requires { (message : T)
            × (self.old.seat.me.1 ≡ (0, Some (held.Message message)) ∷ rest self.old.seat.me.1) }
        ensures message { self.old.seat.me.1 ≡ (0, Some (held.Message result)) ∷ rest self.old.seat.me.1 }
        ensures seat { self.new.seat.me ≡ (self.old.seat.me.0, (0, None) ∷ rest self.old.seat.me.1) }
    {
        let content = self
            .channel
            .shared
            .exchange(&mut self.seat, MESSAGE_SLOT, None);
        let Some(Held::Message(message)) = content else {
            unreachable!()
        };
        message
    }

    /// The receiver looks at the word.
    pub(crate) fn receiver_load(&mut self) -> u64
        requires receives { Receives self.old.seat.me }
        requires stage { MayWait (receiver_of self.old.seat.me.0) }
        ensures follows { sender_makes (receiver_of self.old.seat.me.0).word result ≡ true }
        ensures play { ReceiverLooks self.old.seat.me result self.new.seat.me }
        ensures core { ReceiverSteps (counts_as (steps.ReceiverLoad false) result) result
            self.old.seat.me self.new.seat.me }
    {
        self.channel.shared.load::<ReceiverLook>(&mut self.seat, 0)
    }

    /// The receiver looks at the word, to take the waker's slot where it is empty.
    pub(crate) fn poll_load(&mut self) -> u64
        requires receives { Receives self.old.seat.me }
        requires stage { MayWait (receiver_of self.old.seat.me.0) }
        requires fresh { IsFresh (receiver_of self.old.seat.me.0) }
        ensures follows { sender_makes (receiver_of self.old.seat.me.0).word result ≡ true }
        ensures word { IsWord result }
        ensures empty { result ≡ EMPTY → (receiver_of self.old.seat.me.0).stage ≡ receiver.Plain }
        ensures receiving { result ≡ RECEIVING → (receiver_of self.old.seat.me.0).stage ≡ receiver.Waiting }
        ensures play { PollLooks self.old.seat.me result self.new.seat.me }
        ensures core { ReceiverSteps (counts_as (steps.ReceiverLoad false) result) result
            self.old.seat.me self.new.seat.me }
    {
        self.channel.shared.load::<PollLook>(&mut self.seat, 0)
    }

    /// The receiver looks at the word, to cancel.
    pub(crate) fn cancel_load(&mut self) -> u64
        requires receives { Receives self.old.seat.me }
        requires stage { MayCancel (receiver_of self.old.seat.me.0) }
        ensures follows { sender_makes (receiver_of self.old.seat.me.0).word result ≡ true }
        ensures word { IsWord result }
        ensures play { CancelLooks self.old.seat.me result self.new.seat.me }
        ensures core { ReceiverSteps (counts_as (steps.ReceiverLoad true) result) result
            self.old.seat.me self.new.seat.me }
    {
        self.channel.shared.load::<CancelLook>(&mut self.seat, 0)
    }

    /// The receiver swaps in `DISCONNECTED`, to end.
    pub(crate) fn swap(&mut self) -> u64
        requires receives { Receives self.old.seat.me }
        requires stage { (receiver_of self.old.seat.me.0).stage ≡ receiver.Plain }
        ensures follows { sender_makes (receiver_of self.old.seat.me.0).word result ≡ true }
        ensures play { Swaps self.old.seat.me result self.new.seat.me }
        ensures core { ReceiverSteps (counts_as steps.Swap result) result self.old.seat.me self.new.seat.me }
    {
        self.channel
            .shared
            .swap::<SwapOut>(&mut self.seat, 0, DISCONNECTED)
    }

    /// The receiver stores `DISCONNECTED`, since it found a message.
    pub(crate) fn store(&mut self)
        requires receives { Receives self.old.seat.me }
        requires stage { MayWait (receiver_of self.old.seat.me.0) }
        requires found { (receiver_of self.old.seat.me.0).word ≡ MESSAGE }
        ensures play { Stores self.old.seat.me DISCONNECTED self.new.seat.me }
        ensures core { ReceiverSteps (counts_as steps.Store MESSAGE) MESSAGE
            self.old.seat.me self.new.seat.me }
    {
        self.channel
            .shared
            .store::<StoreOut>(&mut self.seat, 0, DISCONNECTED);
    }

    /// The receiver puts a waker into its slot, which it has out.
    pub(crate) fn put_waker(&mut self, waker: Waker)
        requires { (content : Slot T) × (self.old.seat.me.1 ≡ (1, content) ∷ rest self.old.seat.me.1) }
        ensures { self.new.seat.me
            ≡ (self.old.seat.me.0, (1, Some (held.Waker waker)) ∷ rest self.old.seat.me.1) }
    {
        let _ = self
            .channel
            .shared
            .exchange(&mut self.seat, WAKER_SLOT, Some(Held::Waker(waker)));
    }

    /// The receiver empties the waker's slot, which it has out.
    pub(crate) fn drop_waker(&mut self)
        requires { (content : Slot T) × (self.old.seat.me.1 ≡ (1, content) ∷ rest self.old.seat.me.1) }
        ensures { self.new.seat.me ≡ (self.old.seat.me.0, (1, None) ∷ rest self.old.seat.me.1) }
    {
        let _ = self
            .channel
            .shared
            .exchange(&mut self.seat, WAKER_SLOT, None);
    }

    /// The receiver exchanges `EMPTY` for `RECEIVING`, to leave the waker in its slot.
    pub(crate) fn empty_to_receiving(&mut self, waker: Waker) -> u64
        requires receives { Receives self.old.seat.me }
        requires stage { (receiver_of self.old.seat.me.0).stage ≡ receiver.Plain }
        requires has { (receiver_of self.old.seat.me.0).waker ≡ slot.Taken }
        requires waker { self.old.seat.me.1 ≡ (1, Some (held.Waker waker)) ∷ rest self.old.seat.me.1 }
        ensures follows { sender_makes (receiver_of self.old.seat.me.0).word result ≡ true }
        ensures play { Leaves self.old.seat.me result self.new.seat.me }
        ensures core { ReceiverSteps (steps.PutWaker waker ∷ counts_as steps.EmptyToReceiving result) result
            self.old.seat.me self.new.seat.me }
    {
        self.channel
            .shared
            .compare_exchange::<Leave>(&mut self.seat, 0, EMPTY, RECEIVING)
    }

    /// The receiver exchanges `RECEIVING` for `EMPTY`, to have its waker back.
    pub(crate) fn receiving_to_empty(&mut self) -> u64
        requires receives { Receives self.old.seat.me }
        requires stage { MayFetch (receiver_of self.old.seat.me.0) }
        ensures follows { sender_makes (receiver_of self.old.seat.me.0).word result ≡ true }
        ensures play { Fetches self.old.seat.me result self.new.seat.me }
        ensures core { ReceiverSteps (counts_as steps.ReceivingToEmpty result) result
            self.old.seat.me self.new.seat.me }
    {
        self.channel
            .shared
            .compare_exchange::<Fetch>(&mut self.seat, 0, RECEIVING, EMPTY)
    }

    /// The receiver exchanges `AWAKING` for `DISCONNECTED`, to cancel.
    pub(crate) fn awaking_to_disconnected(&mut self) -> u64
        requires receives { Receives self.old.seat.me }
        requires stage { (receiver_of self.old.seat.me.0).stage ≡ receiver.Cancelling }
        ensures follows { sender_makes (receiver_of self.old.seat.me.0).word result ≡ true }
        ensures play { EndsAwaking self.old.seat.me result self.new.seat.me }
        ensures core { ReceiverSteps (counts_as steps.AwakingToDisconnected result) result
            self.old.seat.me self.new.seat.me }
    {
        self.channel
            .shared
            .compare_exchange::<EndAwaking>(&mut self.seat, 0, AWAKING, DISCONNECTED)
    }

    /// The receiver exchanges `EMPTY` for `DISCONNECTED`, to cancel.
    pub(crate) fn empty_to_disconnected(&mut self) -> u64
        requires receives { Receives self.old.seat.me }
        requires stage { (receiver_of self.old.seat.me.0).stage ≡ receiver.Cancelling }
        ensures follows { sender_makes (receiver_of self.old.seat.me.0).word result ≡ true }
        ensures play { EndsEmpty self.old.seat.me result self.new.seat.me }
        ensures core { ReceiverSteps (counts_as steps.EmptyToDisconnected result) result
            self.old.seat.me self.new.seat.me }
    {
        self.channel
            .shared
            .compare_exchange::<EndEmpty>(&mut self.seat, 0, EMPTY, DISCONNECTED)
    }

    /// What is left of an end that has ended.
    pub(crate) fn into_spent(self) -> Spent<T>
        ensures { result ≡ self.seat.me.0 }
    {
        let End { channel: _, seat } = self;
        Spent { seat }
    }
}
