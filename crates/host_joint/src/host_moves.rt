//! What a host does with an ask, and what it can conclude. Each function does nothing, and its contract is the law.

ghost use Rattle.std.specs.Prelude.{◌≡◌, ◌≢◌, ◌≤◌, ℕ, Some, false, true, List, [], ◌∷◌, ◌++◌, length};
ghost use Rattle.usbip_wire.specs.declared.submit.SubmitHead.{SubmitHead};
ghost use Rattle.usbip_wire.specs.declared.unlink.UnlinkHead.{UnlinkHead};
ghost use Rattle.usbip_wire.specs.declared.ret_submit.RetSubmitHead.{RetSubmitHead};
ghost use Rattle.usbip_wire.specs.declared.ret_unlink.RetUnlinkHead.{RetUnlinkHead};
ghost use Rattle.usbip_wire.specs.Up as up;
ghost use Rattle.tmc_wire.specs.declared.header.OutHeader.TheVariants.{Request};
ghost use Rattle.tmc_law.specs.Endpoint.{Endpoint, BulkOut, BulkIn, InterruptIn, number_of};
ghost use Rattle.tmc_law.specs.State.{State};
ghost use Rattle.tmc_law.specs.Logging.{unread};
ghost use Rattle.tmc_law.specs.Put.{Put, Submitted, Unlinked, success, stalled};
ghost use Rattle.tmc_wire.specs.Standard.{header_size};
ghost use Rattle.host_joint.specs.Lines.{Gives, Lines, EmptyLine, InOrder, without, unlinks_in, events_of};
ghost use Rattle.host_joint.specs.Unlinking.{Unlinking};
ghost use Rattle.host_joint.specs.Jobs.{Job, IsJob, last_header};
ghost use Rattle.host_joint.specs.Reads.{IsRead, IsHalted, gives};
ghost use Rattle.host_joint.specs.Stage.{IsUnasked, IsInner, IsFinal, NoExec, IsAnother};
ghost use Rattle.host_joint.specs.Asking.{Ask, Asking, Cancelled};
ghost use Rattle.host_joint.specs.Hosted.{OutAnswered, InAnswered, IsNextOf, IsLeft, unlinks_of};

use crate::{hosts_keep_lines, what_is_answered_is_over};

/// The answers that a host takes in an ask. One to a transfer says that it was taken whole, or that Bulk-OUT halted. One to a
/// read is full, ends the piece, or tells of a halt of Bulk-IN. One on Interrupt-IN, or to an unlink, leaves the ask as it is.
pub fn answers_are_taken()
    ensures outs { (ask : Ask) (ups : List up.Message) (head : SubmitHead) (answer : RetSubmitHead) (transferred : List ℕ) (downs : List Put) (s : State)
        → head.ep ≡ number_of BulkOut → Asking ask ups (Submitted head answer transferred ∷ downs) s → OutAnswered ask ups head answer downs s }
    ensures ins { (ask : Ask) (ups : List up.Message) (head : SubmitHead) (answer : RetSubmitHead) (transferred : List ℕ) (downs : List Put) (s : State)
        → head.ep ≡ number_of BulkIn → Asking ask ups (Submitted head answer transferred ∷ downs) s
        → InAnswered ask ups (Gives head answer transferred) downs s }
    ensures interrupts { (ask : Ask) (ups : List up.Message) (head : SubmitHead) (answer : RetSubmitHead) (transferred : List ℕ) (downs : List Put) (s : State)
        → head.ep ≡ number_of InterruptIn → Asking ask ups (Submitted head answer transferred ∷ downs) s → Asking ask ups downs s }
    ensures unlinks { (ask : Ask) (ups : List up.Message) (head : UnlinkHead) (answer : RetUnlinkHead) (downs : List Put) (s : State)
        → Asking ask ups (Unlinked head answer ∷ downs) s → Asking ask ups downs s }
{}

/// What a host writes in an ask. Where all that it wrote was taken: the next part of the message; and behind the last part, or
/// behind a piece without EOM, the request of a piece. At a greater depth the first request, right behind the last part, before that
/// one was answered. At any time a submit to Interrupt-IN, before it cancels a read, and at last
/// the unlinks of a cancel.
pub fn messages_are_written()
    ensures part { (ask : Ask) (ups : List up.Message) (downs : List Put) (s : State) (job : Job) → IsJob job → IsNextOf ask job
        → ask.answered ≡ length ask.written → Asking ask ups downs s
        → Asking (record ask { written = ask.written ++ job ∷ [] }) (ups ++ up.Submit job.head job.bytes ∷ []) downs s }
    ensures request { (ask : Ask) (ups : List up.Message) (downs : List Put) (s : State) (job : Job) → IsJob job
        → job.header ≡ Request ask.tag ask.size → IsUnasked ask.written ask.sofar → (ask.sofar ≢ [] → unread s ≢ [])
        → ask.answered ≡ length ask.written → Asking ask ups downs s
        → Asking (record ask { written = ask.written ++ job ∷ [] }) (ups ++ up.Submit job.head job.bytes ∷ []) downs s }
    ensures request_ahead { (ask : Ask) (tag size : ℕ) (front : List Job) (final job : Job) (ups : List up.Message) (downs : List Put) (s : State) → IsJob job
        → job.header ≡ Request tag size → ask.written ≡ front ++ final ∷ [] → IsInner (last_header front) → IsFinal (Some final.header)
        → ask.answered ≡ length front → ask.sofar ≡ [] → ask.gone ≡ false → Asking ask ups downs s
        → Asking (record ask { tag = tag; size = size; written = ask.written ++ job ∷ [] }) (ups ++ up.Submit job.head job.bytes ∷ []) downs s }
    ensures one_read { (ask : Ask) (ups : List up.Message) (downs : List Put) (s : State) (head : SubmitHead) → IsRead head
        → ask.gone ≡ false → Asking ask ups downs s → Asking ask (ups ++ up.Submit head [] ∷ []) downs s }
    ensures interrupt { (ask : Ask) (ups : List up.Message) (downs : List Put) (s : State) (head : SubmitHead)
        → head.ep ≡ number_of InterruptIn → Asking ask ups downs s → Asking ask (ups ++ up.Submit head [] ∷ []) downs s }
    ensures unlinks { (ask : Ask) (ups : List up.Message) (downs : List Put) (s : State) (heads : List UnlinkHead)
        → Asking ask ups downs s → Asking (record ask { gone = true }) (ups ++ unlinks_of heads) downs s }
{}

/// What a host settles in an ask before it writes it, where all that it wrote was taken: the tag and the size of a request before
/// a request was written, and the number that ends the message before its last part was. Behind a piece, once the unlinks of
/// reads that were left over were answered, it writes reads again.
pub fn asks_are_settled_late()
    ensures request { (ask : Ask) (tag size : ℕ) (ups : List up.Message) (downs : List Put) (s : State)
        → ((other most : ℕ) → last_header ask.written ≡ Some (Request other most) → ⊥) → ask.answered ≡ length ask.written
        → Asking ask ups downs s → Asking (record ask { tag = tag; size = size }) ups downs s }
    ensures last { (ask : Ask) (last : ℕ) (ups : List up.Message) (downs : List Put) (s : State) → IsInner (last_header ask.written) → ask.sofar ≡ []
        → ask.answered ≡ length ask.written → NoExec last s.log → IsAnother last s.waiting
        → Asking ask ups downs s → Asking (record ask { last = last }) ups downs s }
    ensures reads { (ask : Ask) (ups : List up.Message) (downs : List Put) (s : State) → ask.written ≡ [] → ask.sofar ≢ [] → unlinks_in ups ≡ []
        → Asking ask ups downs s → Asking (record ask { gone = false }) ups downs s }
{}

/// Behind the first answer that tells of a halt the ask stays in hand, so that each later one can be taken, and the later ones at that endpoint tell of it
/// too. No answer to the first read of a piece is empty: it tells of a halt, or begins with the header of the piece.
pub fn answers_go_on()
    ensures outs { (ask : Ask) (ups : List up.Message) (head : SubmitHead) (answer : RetSubmitHead) (transferred : List ℕ) (downs : List Put) (s : State)
        → head.ep ≡ number_of BulkOut → answer.status ≡ stalled → Asking ask ups (Submitted head answer transferred ∷ downs) s
        → Asking ask ups downs s × IsHalted (gives (events_of BulkOut downs)) }
    ensures ins { (ask : Ask) (ups : List up.Message) (head : SubmitHead) (answer : RetSubmitHead) (transferred : List ℕ) (downs : List Put) (s : State)
        → head.ep ≡ number_of BulkIn → answer.status ≡ stalled → Asking ask ups (Submitted head answer transferred ∷ downs) s
        → Asking ask ups downs s × IsHalted (gives (events_of BulkIn downs)) }
    ensures first { (ask : Ask) (ups : List up.Message) (head : SubmitHead) (answer : RetSubmitHead) (transferred : List ℕ) (downs : List Put) (s : State)
        → head.ep ≡ number_of BulkIn → answer.status ≡ success → ask.read ≡ [] → Asking ask ups (Submitted head answer transferred ∷ downs) s
        → header_size ≤ length transferred }
{
    answers_are_taken();
}

/// An ask that a cancel has reached goes on so. It begins where the host writes an unlink for each bulk submit that is not answered, in
/// falling order. An answer to a submit leaves a cancelled ask, with one submit fewer; and so does the answer to an unlink, hit or miss, which
/// is to the first of them. Once each unlink was answered, nothing of the bulk endpoints is left.
pub fn cancelled_asks_go_on()
    ensures begins { (asked : Endpoint → List SubmitHead) (heads : List UnlinkHead) (ask : Ask) (ups : List up.Message) (downs : List Put) (s : State)
        → Lines asked [] ups downs s → Unlinking asked heads → Asking ask ups downs s
        → Cancelled asked heads (record ask { gone = true }) (ups ++ unlinks_of heads) downs s × InOrder (ups ++ unlinks_of heads) }
    ensures outs { (asked : Endpoint → List SubmitHead) (unlinks : List UnlinkHead) (ask : Ask) (ups : List up.Message) (head : SubmitHead) (answer : RetSubmitHead) (transferred : List ℕ) (downs : List Put) (s : State)
        → head.ep ≡ number_of BulkOut → Cancelled asked unlinks ask ups (Submitted head answer transferred ∷ downs) s
        → OutAnswered ask ups head answer downs s × IsLeft asked unlinks BulkOut head ups downs s }
    ensures ins { (asked : Endpoint → List SubmitHead) (unlinks : List UnlinkHead) (ask : Ask) (ups : List up.Message) (head : SubmitHead) (answer : RetSubmitHead) (transferred : List ℕ) (downs : List Put) (s : State)
        → head.ep ≡ number_of BulkIn → Cancelled asked unlinks ask ups (Submitted head answer transferred ∷ downs) s
        → InAnswered ask ups (Gives head answer transferred) downs s × IsLeft asked unlinks BulkIn head ups downs s }
    ensures interrupts { (asked : Endpoint → List SubmitHead) (unlinks : List UnlinkHead) (ask : Ask) (ups : List up.Message) (head : SubmitHead) (answer : RetSubmitHead) (transferred : List ℕ) (downs : List Put) (s : State)
        → head.ep ≡ number_of InterruptIn → Cancelled asked unlinks ask ups (Submitted head answer transferred ∷ downs) s
        → Asking ask ups downs s × IsLeft asked unlinks InterruptIn head ups downs s }
    ensures unlinked { (asked : Endpoint → List SubmitHead) (unlinks : List UnlinkHead) (ask : Ask) (ups : List up.Message) (head : UnlinkHead) (answer : RetUnlinkHead) (downs : List Put) (s : State)
        → Cancelled asked unlinks ask ups (Unlinked head answer ∷ downs) s
        → (rest : List UnlinkHead) × (unlinks ≡ head ∷ rest) × Cancelled (λ endpoint. without head.target (asked endpoint)) rest ask ups downs s }
    ensures over { (asked : Endpoint → List SubmitHead) (ask : Ask) (ups : List up.Message) (downs : List Put) (s : State)
        → Cancelled asked [] ask ups downs s → EmptyLine BulkOut ups downs s × EmptyLine BulkIn ups downs s }
{
    answers_are_taken();
    messages_are_written();
    hosts_keep_lines();
    what_is_answered_is_over();
}
