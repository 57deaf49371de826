//! What the promises of `play` and of the program say, clause by clause.
ghost use Rattle.std.specs.Prelude.{◌≡◌, ℕ, ◌+◌, ◌*◌, ◌<◌, ◌≤◌, ◌⊎◌, List, [], ◌∷◌, ◌++◌, length, map, string_bytes, OnOk, IfOk, Some, Err};
ghost use Rattle.band_base.specs.Device.{AppendsPrefix, Rose};
ghost use Rattle.band_rules.specs.Joined.{joiners_of};
ghost use Rattle.band_rules.specs.Script.{Good, Malformed, TooLong, verdict, calls_within, transcript};
ghost use Rattle.band_play.specs.Play.{Gave, Comes, PlaysGiven, KeepsUp, Told, AskToPlay, AreOthers, IsStatus, end_of, program_limit};
ghost use Rattle.band_play.specs.Text.{fault_text, usage_text};
ghost use Rattle.band_uses.specs.Outcome.{AllRead, answer_of, exit_of};

use band_base::{Sink, Source, Steps};
use band_play::{PlayFault, play, run};
use std::alloc::Global;
use std::sync::ledger::Ledger;

/// Plays a script.
pub fn play_script<S: Source, D: Sink, L: Ledger>(
    alloc: Global,
    src: &mut S,
    dst: &mut D,
    limit: u64,
    steps: &mut Steps<L>,
) -> Result<u64, PlayFault>
    requires { limit < u64.MAX }
    ensures ok { IfOk result (λ lines.
        Comes (Good lines) limit (S.left src.old) (D.written dst.old) (D.written dst.new)) }
    ensures all_read { OnOk result (AllRead (S.left src.old) (S.left src.new)) }
    ensures malformed { (line : ℕ) → result ≡ Err (PlayFault.Malformed line) →
        Comes (Malformed line) limit (S.left src.old) (D.written dst.old) (D.written dst.new) }
    ensures too_long { result ≡ Err PlayFault.TooLong →
        Comes TooLong limit (S.left src.old) (D.written dst.old) (D.written dst.new) }
    ensures past { result ≡ Err PlayFault.TooLong →
        Gave (λ given. length given ≡ limit + 1) (S.left src.old) (S.left src.new) }
    ensures read { result ≡ Err PlayFault.Read → Rose (S.faults src.old) (S.faults src.new) }
    ensures stops { result ≡ Err PlayFault.Read →
        Gave (λ given. PlaysGiven limit given (D.written dst.old) (D.written dst.new))
        (S.left src.old) (S.left src.new) }
    ensures write { result ≡ Err PlayFault.Write → Rose (D.faults dst.old) (D.faults dst.new) }
    ensures visits { IfOk result (λ lines. steps.new ≤ steps.old + 16 * lines) }
    ensures joins { (result ≡ Err PlayFault.NoMemory → ⊥) →
        Gave (λ given. steps.old + joiners_of (calls_within limit given) ≤ steps.new)
        (S.left src.old) (S.left src.new) }
    // Whatever the answer is.
    ensures few { Gave (λ given. steps.new ≤ steps.old + 16 * length (calls_within limit given))
        (S.left src.old) (S.left src.new) }
    ensures takes { Gave (λ given. length given ≤ limit + 1) (S.left src.old) (S.left src.new) }
    ensures front { Gave (λ given.
        AppendsPrefix (transcript (calls_within limit given)) (D.written dst.old) (D.written dst.new))
        (S.left src.old) (S.left src.new) }
    ensures keeps_up { Gave (λ given. KeepsUp limit given (D.written dst.old) (D.written dst.new))
        (S.left src.old) (S.left src.new) }
    // Where neither end has failed, the answer is the outcome, or that there was no memory.
    ensures completes { (Rose (S.faults src.old) (S.faults src.new) → ⊥) →
        (Rose (D.faults dst.old) (D.faults dst.new) → ⊥) → (bytes : List ℕ) → S.left src.old ≡ Some bytes →
        (result ≡ answer_of (verdict limit bytes)) ⊎ (result ≡ Err PlayFault.NoMemory) }
    ensures reads_never_fall { S.faults src.old ≤ S.faults src.new }
    ensures writes_never_fall { D.faults dst.old ≤ D.faults dst.new }
{
    play(alloc, src, dst, limit, steps)
}

/// Runs the program on its words.
pub fn run_program<S: Source, D: Sink, E: Sink, L: Ledger>(
    alloc: Global,
    words: &[String],
    src: &mut S,
    dst: &mut D,
    err: &mut E,
    steps: &mut Steps<L>,
) -> u8
    ensures status { IsStatus result }
    ensures usage { result ≡ 2 → AreOthers (map string_bytes words.now) }
    ensures other_words { AreOthers (map string_bytes words.now) → (result ≡ 2) ⊎ (result ≡ 7) }
    ensures unread { (AskToPlay (map string_bytes words.now) → ⊥) → src.new ≡ src.old }
    ensures untouched { AreOthers (map string_bytes words.now) → dst.new ≡ dst.old }
    ensures ok { AskToPlay (map string_bytes words.now) → result ≡ 0 → (lines : ℕ)
        × Comes (Good lines) program_limit (S.left src.old) (D.written dst.old) (D.written dst.new) }
    ensures all_read { AskToPlay (map string_bytes words.now) → result ≡ 0 → AllRead (S.left src.old) (S.left src.new) }
    ensures malformed { result ≡ 3 → (line : ℕ)
        × Comes (Malformed line) program_limit (S.left src.old) (D.written dst.old) (D.written dst.new)
        × Told (fault_text (PlayFault.Malformed line) ++ 10 ∷ [])
        (end_of E.written E.faults err.old err.new) }
    ensures too_long { result ≡ 4 →
        Comes TooLong program_limit (S.left src.old) (D.written dst.old) (D.written dst.new) }
    ensures past { result ≡ 4 →
        Gave (λ given. length given ≡ program_limit + 1) (S.left src.old) (S.left src.new) }
    ensures read { result ≡ 5 → Rose (S.faults src.old) (S.faults src.new) }
    ensures stops { result ≡ 5 →
        Gave (λ given. PlaysGiven program_limit given (D.written dst.old) (D.written dst.new))
        (S.left src.old) (S.left src.new) }
    ensures write { result ≡ 6 → Rose (D.faults dst.old) (D.faults dst.new) }
    // Whatever the status is.
    ensures takes { Gave (λ given. length given ≤ program_limit + 1) (S.left src.old) (S.left src.new) }
    ensures front { AskToPlay (map string_bytes words.now) → Gave (λ given.
        AppendsPrefix (transcript (calls_within program_limit given)) (D.written dst.old) (D.written dst.new))
        (S.left src.old) (S.left src.new) }
    ensures keeps_up { AskToPlay (map string_bytes words.now) →
        Gave (λ given. KeepsUp program_limit given (D.written dst.old) (D.written dst.new))
        (S.left src.old) (S.left src.new) }
    // Where neither end has failed, the status is that of the outcome, or that there was no memory.
    ensures completes { AskToPlay (map string_bytes words.now) →
        (Rose (S.faults src.old) (S.faults src.new) → ⊥) → (Rose (D.faults dst.old) (D.faults dst.new) → ⊥) →
        (bytes : List ℕ) → S.left src.old ≡ Some bytes →
        (result ≡ exit_of (answer_of (verdict program_limit bytes))) ⊎ (result ≡ 7) }
    // What is told on `err`.
    ensures quiet { result ≡ 0 → err.new ≡ err.old }
    ensures tells_usage { result ≡ 2 →
        Told (usage_text ++ 10 ∷ []) (end_of E.written E.faults err.old err.new) }
    ensures tells_too_long { result ≡ 4 →
        Told (fault_text PlayFault.TooLong ++ 10 ∷ []) (end_of E.written E.faults err.old err.new) }
    ensures tells_read { result ≡ 5 →
        Told (fault_text PlayFault.Read ++ 10 ∷ []) (end_of E.written E.faults err.old err.new) }
    ensures tells_write { result ≡ 6 →
        Told (fault_text PlayFault.Write ++ 10 ∷ []) (end_of E.written E.faults err.old err.new) }
    ensures tells_front { result ≡ 7 →
        AppendsPrefix (usage_text ++ 10 ∷ []) (E.written err.old) (E.written err.new)
        ⊎ ((fault : PlayFault)
        × AppendsPrefix (fault_text fault ++ 10 ∷ []) (E.written err.old) (E.written err.new)) }
    ensures reads_never_fall { S.faults src.old ≤ S.faults src.new }
    ensures writes_never_fall { D.faults dst.old ≤ D.faults dst.new }
    ensures tells_never_fall { E.faults err.old ≤ E.faults err.new }
{
    run(alloc, words, src, dst, err, steps)
}
