//! Worked cancels with several unlinks. Each function does nothing, and its contract is what holds of the example.

ghost use Rattle.std.specs.Prelude.{ℕ, true, List, [], ◌∷◌, drop};
ghost use Rattle.usbip_wire.specs.declared.ret_unlink.RetUnlinkHead.{RetUnlinkHead};
ghost use Rattle.usbip_wire.specs.Up as up;
ghost use Rattle.tmc_law.specs.Endpoint.{BulkOut, BulkIn};
ghost use Rattle.tmc_law.specs.State.{State, start};
ghost use Rattle.tmc_law.specs.Put.{Put, Unlinked, success};
ghost use Rattle.tmc_law.specs.AnswerFits.{AllAnswers};
ghost use Rattle.tmc_law.specs.Run.{Runs, inputs, outputs};
ghost use Rattle.tmc_law.specs.WorkedQuery.{query_submit};
ghost use Rattle.tmc_law.specs.WorkedSession.{unlink};
ghost use Rattle.host_joint.specs.Lines.{EmptyLine, without};
ghost use Rattle.host_joint.specs.Asking.{Cancelled};
ghost use Rattle.host_joint.specs.Hosted.{IsLeft};
ghost use Rattle.host_joint.specs.Given.{SuitsSubmit, Suits};
ghost use Rattle.host_joint.specs.Hits.{TellsHits};
ghost use Rattle.host_joint.specs.WorkedAsks.{query_ask, query_asked};
ghost use Rattle.host_joint.specs.WorkedTies.{queried};
ghost use Rattle.host_joint.specs.WorkedAhead.{ahead_asked, ahead_unlinks, cancelling_ahead};
ghost use Rattle.host_joint.specs.WorkedCancels.{race_unlinks, racing};

use crate::{
    answers_suit_their_submits, cancelled_asks_go_on, cancelled_asks_stay, lists_tell_hits,
    worked_asks_are_in_hand, worked_asks_are_written_ahead,
};
use tmc_law::laws::runs_join;
use tmc_law::worked::a_query_is_answered;

/// A query whose request and read were written ahead is cancelled with three unlinks, and stays so when all three missed; the answer to its
/// first transfer leaves the other submits. One whose two submits were unlinked before they were taken is cancelled behind the answer to each
/// unlink, and then nothing of it is left. No answer to the second unlink comes first.
pub fn worked_cancelled_asks_go_on()
    ensures runs { Runs start racing queried }
    ensures begins { Cancelled query_asked race_unlinks (record query_ask { gone = true }) (inputs racing) [] start }
    ensures raced { Cancelled query_asked race_unlinks (record query_ask { gone = true }) [] (outputs racing) queried }
    ensures taken { IsLeft query_asked race_unlinks BulkOut query_submit [] (drop 1 (outputs racing)) queried }
    ensures one { Cancelled (λ endpoint. without 2 (ahead_asked endpoint)) (unlink 4 1 ∷ []) (record query_ask { gone = true }) [] (drop 1 (outputs cancelling_ahead)) start }
    ensures two { Cancelled (λ endpoint. without 1 (without 2 (ahead_asked endpoint))) [] (record query_ask { gone = true }) [] [] start }
    ensures over { EmptyLine BulkOut [] [] start × EmptyLine BulkIn [] [] start }
    ensures second { (answer : RetUnlinkHead) (ups : List up.Message) (downs : List Put) (s : State)
        → Cancelled ahead_asked ahead_unlinks (record query_ask { gone = true }) ups (Unlinked (unlink 4 1) answer ∷ downs) s → ⊥ }
{
    a_query_is_answered();
    runs_join();
    worked_asks_are_in_hand();
    worked_asks_are_written_ahead();
    cancelled_asks_stay();
    cancelled_asks_go_on();
}

/// The answers to the unlinks of both say which submits were answered: all three, and none. None says that an unlink missed whose submit
/// was not answered.
pub fn worked_lists_tell_hits()
    ensures raced { TellsHits query_asked (outputs racing) }
    ensures hits { TellsHits ahead_asked (outputs cancelling_ahead) }
    ensures missed { (downs : List Put) → TellsHits ahead_asked (Unlinked (unlink 3 2) (record { seqnum = 3; status = success }) ∷ downs) → ⊥ }
{
    worked_cancelled_asks_go_on();
    worked_asks_are_written_ahead();
    worked_answers_suit_their_submits();
    lists_tell_hits();
}

/// All answers of both suit what they answer. None with the number of another submit suits the first one.
pub fn worked_answers_suit_their_submits()
    ensures raced { AllAnswers Suits (outputs racing) }
    ensures hits { AllAnswers Suits (outputs cancelling_ahead) }
    ensures other { (transferred : List ℕ) → SuitsSubmit query_submit (record { seqnum = 2; status = success; actual = 20 }) transferred → ⊥ }
{
    worked_cancelled_asks_go_on();
    worked_asks_are_written_ahead();
    answers_suit_their_submits();
}
