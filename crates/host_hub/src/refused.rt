//! Wrong records, which no law allows. Each function does nothing, and its contract is the law.

ghost use Rattle.std.specs.Prelude.{◌≡◌, true, None, Some, ◌∷◌};
ghost use Rattle.tmc_wire.specs.declared.class_request.ClassRequest.TheVariants as class;
ghost use Rattle.host_hub.specs.declared.outcome.Outcome.TheVariants as outcome;
ghost use Rattle.host_hub.specs.Order.{Class, Part, Unlink};
ghost use Rattle.host_hub.specs.Record.{Cancelled, Of, Recovery, Settled, Wrote};
ghost use Rattle.host_hub.specs.Law.{Kept, Lawful};
ghost use Rattle.host_hub.specs.Status.{stale};
ghost use Rattle.host_hub.specs.Worked.{complete_query, setting, success, unlink_answer};
ghost use Rattle.host_hub.specs.WorkedStops.{cancel_record, reading, unlinking};
ghost use Rattle.host_hub.specs.WorkedWrong.{lost, raced, stale_cancelled, stale_packet, unrecovered};

use host_recover::a_whole_word_ends;

/// A ticket whose response was whole is not cancelled, also not once its unlink is answered, and its outcome is owed at once.
/// One whose response was lost is not complete.
pub fn outcomes_are_not_chosen()
    ensures whole { Lawful setting (Settled 1 outcome.Cancelled ∷ raced) → ⊥ }
    ensures behind { Lawful setting (Settled 1 outcome.Cancelled ∷ unlink_answer 4 success ∷ raced) → ⊥ }
    ensures late { Kept setting raced → ⊥ }
    ensures lost { Lawful setting (Settled 1 outcome.Complete ∷ lost) → ⊥ }
{}

/// A cancel is not without its unlink, no unlink comes that nobody asked for, and none twice.
pub fn unlinks_are_not_chosen()
    ensures none { Kept setting (Cancelled 1 ∷ reading complete_query) → ⊥ }
    ensures unasked { Lawful setting (Wrote 4 (Of 1) (Unlink 3) ∷ reading complete_query) → ⊥ }
    ensures twice { Lawful setting (Wrote 5 (Of 1) (Unlink 3) ∷ unlinking complete_query) → ⊥ }
{}

/// The next ticket does not begin before the recovery is over, and a recovery that is over writes nothing more.
pub fn recoveries_are_not_chosen()
    ensures before { Lawful setting (Wrote 5 (Of 2) (Part 3 complete_query true) ∷ unrecovered) → ⊥ }
    ensures behind { Lawful setting (Wrote 8 Recovery (Class class.CheckIn) ∷ cancel_record) → ⊥ }
{
    a_whole_word_ends();
}

/// A packet with a stale tag is not the status of the read that is active: the two have other tags.
pub fn packets_are_not_chosen()
    ensures stale { stale setting stale_cancelled ≡ Some 2 }
    ensures taken { stale setting stale_packet ≡ None }
    ensures outcome { Lawful setting (Settled 2 (outcome.Status 0x50) ∷ stale_packet) → ⊥ }
{}
