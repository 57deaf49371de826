//! Laws of events.
ghost use Rattle.std.specs.Prelude.{◌≡◌, ℕ, Some, Ok, Result, true, false, []};
ghost use Rattle.band_base.specs.declared.poll.Poll.{Poll as ThePoll};
ghost use Rattle.band_base.specs.declared.poll.Poll.TheVariants.{Ready};
ghost use Rattle.band_base.specs.declared.poll.PollError.{PollError as TheError};
ghost use Rattle.band_base.specs.declared.waker.Waker.{Waker as TheWaker};
ghost use Rattle.band_event.specs.declared.place.Place.TheVariants.{Called};
ghost use Rattle.band_event.specs.Event.{EventState, IsEvent, is_queued, PollsAuto, PollsManual};
ghost use Rattle.band_signal.specs.Waits.{Life, Registered};
ghost use Rattle.band_signal.specs.WaitQueue.{place_at};

/// An event that is set, or has stored a signal, has nobody in line, and a wait that is queued belongs to one that is not.
/// The clause `sound` of each call says that an event is so.
pub fn set_events_have_no_line()
    ensures line { (event : EventState) → IsEvent event → event.is_set ≡ true → event.queue.line.linked ≡ [] }
    ensures queued { (event : EventState) → IsEvent event
        → (slot : ℕ) → is_queued (place_at slot event.queue) ≡ true → event.is_set ≡ false }
{}

/// A wait that an event has called is ready, whether the event is set or not. That it stays called over a `set`, and over
/// polls and cancels of others, their clauses `stay` and `others` say.
pub fn called_waits_stay_ready()
    ensures manual_reset { (event new : EventState) (slot : ℕ) (waker : TheWaker)
        (result : Result (ThePoll Unit) TheError) (life : Life)
        → place_at slot event.queue ≡ Some Called
        → PollsManual (Registered slot) waker event result life new
        → result ≡ Ok (Ready tt) }
    ensures auto_reset { (event new : EventState) (slot : ℕ) (waker : TheWaker)
        (result : Result (ThePoll Unit) TheError) (life : Life)
        → place_at slot event.queue ≡ Some Called
        → PollsAuto (Registered slot) waker event result life new
        → result ≡ Ok (Ready tt) }
{}
