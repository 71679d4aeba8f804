//! What holds of the words of a recovery. Each function does nothing, and its contract is the law.

ghost use Rattle.std.specs.Prelude.{◌≡◌, ℕ, Bool, true, false, List, [], ◌∷◌, ◌++◌};
ghost use Rattle.host_recover.specs.declared.need.Need.{Need};
ghost use Rattle.host_recover.specs.declared.need.Need.TheVariants as need;
ghost use Rattle.host_recover.specs.Goes.{GoesOn, AreOfOne};
ghost use Rattle.host_recover.specs.Letter.{Letter, Asked, Cleared, Drained, Submit, submit_of, Success, Pending, Queued, Failed, Otherwise, Full, Short, Faulty, BulkIn, Notify, BulkOut};
ghost use Rattle.host_recover.specs.Next.{IsNext};
ghost use Rattle.host_recover.specs.Words.{Has, Begins, words_of};
ghost use Rattle.tmc_wire.specs.declared.class_request.ClassRequest.TheVariants as class;

/// Which submit comes next is determined by the letters so far; only which halt is cleared depends on what was seen
/// halted.
pub fn the_next_submit_is_determined()
    ensures { (called : Need) (letters : List Letter) (letter other : Letter) → Begins (words_of called) (letters ++ letter ∷ [])
        → Begins (words_of called) (letters ++ other ∷ []) → AreOfOne letter other }
{}

/// By which halts were seen, the next submit is one.
pub fn the_next_submit_is_one()
    ensures { (called : Need) (letters : List Letter) (in_halted notify_halted : Bool) (submit other : Submit)
        → IsNext called letters in_halted notify_halted submit → IsNext called letters in_halted notify_halted other → submit ≡ other }
{}

/// Where a submit may come, a recovery goes on with each answer to it, whatever its status and its second byte, but for a
/// clear that the device refuses.
pub fn each_answer_goes_on()
    ensures { (called : Need) (letters : List Letter) (letter answer : Letter) → Begins (words_of called) (letters ++ letter ∷ [])
        → submit_of answer ≡ submit_of letter → GoesOn answer → Begins (words_of called) (letters ++ answer ∷ []) }
{}

/// Each recovery can be made: it has a word.
pub fn each_recovery_has_a_word()
    ensures { (called : Need) → Begins (words_of called) [] }
{}

/// A whole word does not go on, and no recovery is whole before its first submit.
pub fn a_whole_word_ends()
    ensures whole { (called : Need) (letters : List Letter) (letter : Letter) → Has (words_of called) letters → Begins (words_of called) (letters ++ letter ∷ []) → ⊥ }
    ensures begun { (called : Need) → Has (words_of called) [] → ⊥ }
{}

/// Worked words: an abort of a response with a drain; a message whose abort is pending, checked and cleared; a clear with
/// queued data. Where an earlier part was accepted, an unknown transfer is not the whole recovery.
pub fn worked_words()
    ensures response { Has (words_of (need.In 2))
        (Asked (class.AbortIn 2) Success ∷ Drained Full ∷ Drained Short ∷ Asked class.CheckIn Success ∷ []) }
    ensures message { Has (words_of (need.Out 1 false))
        (Asked (class.AbortOut 1) Success ∷ Asked class.CheckOut Pending ∷ Asked class.CheckOut Success ∷ Cleared BulkOut ∷ []) }
    ensures unknown { Has (words_of (need.Out 1 false)) (Asked (class.AbortOut 1) Failed ∷ []) }
    ensures parts { Has (words_of (need.Out 1 true)) (Asked (class.AbortOut 1) Failed ∷ []) → ⊥ }
    ensures clear { Has (words_of need.Full)
        (Asked class.Clear Success ∷ Asked class.CheckClear Queued ∷ Drained Short ∷ Asked class.CheckClear Success ∷ Cleared BulkIn ∷ Cleared BulkOut ∷ []) }
{}
