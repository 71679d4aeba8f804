//! What a device puts out answers what came, and fits it. The function does nothing, and its contract is the law.

ghost use Rattle.std.specs.Prelude.{List};
ghost use Rattle.usbip_wire.specs.declared.unlink.UnlinkHead.{UnlinkHead};
ghost use Rattle.usbip_wire.specs.Up as up;
ghost use Rattle.tmc_law.specs.State.{State, start, pending, Avoids};
ghost use Rattle.tmc_law.specs.Put.{Put};
ghost use Rattle.tmc_law.specs.Step.{Move, Comes, Steps};
ghost use Rattle.tmc_law.specs.Run.{Entry, Runs, SpellsPut};
ghost use Rattle.tmc_law.specs.AnswerFits.{AllAnswers, IsAnswer, FitsAsked, HasPacket, AreOnce, written};

/// Each answer of a step in a state that can be reached, whatever the host did. It answers a submit that was pending, or the
/// submit or the unlink that arrives, with a status of the move: 0 or -32 to a submit, -108 by unplugging alone, 0 or -104
/// to an unlink. It has the number of what it answers, at most the length that was asked, data exactly where that was IN,
/// and can be written. A number is answered once, and is not pending behind the step; nor is the number that an unlink
/// named, hit or miss. With status 0 an answer on Interrupt-IN has 2 bytes.
pub fn answers_fit()
    ensures answers { (run : List Entry) (s t : State) (move : Move) (puts : List Put) → Runs start run s → Steps s move puts t
        → AllAnswers (IsAnswer s move t) puts }
    ensures fit { (run : List Entry) (s t : State) (move : Move) (puts : List Put) → Runs start run s → Steps s move puts t
        → AllAnswers FitsAsked puts }
    ensures spelled { (run : List Entry) (s t : State) (move : Move) (puts : List Put) → Runs start run s → Steps s move puts t
        → AllAnswers (λ put. SpellsPut put (written put)) puts }
    ensures once { (run : List Entry) (s t : State) (move : Move) (puts : List Put) → Runs start run s → Steps s move puts t
        → AreOnce puts t }
    ensures packets { (run : List Entry) (s t : State) (move : Move) (puts : List Put) → Runs start run s → Steps s move puts t
        → AllAnswers HasPacket puts }
    ensures unlinked { (run : List Entry) (s t : State) (head : UnlinkHead) (puts : List Put) → Runs start run s
        → Steps s (Comes (up.Unlink head)) puts t → Avoids head.target (pending t) }
{}
