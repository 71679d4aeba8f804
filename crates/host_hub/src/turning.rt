//! One turn of a hub that runs: its calls of the link.

ghost use Rattle.std.specs.Prelude.{◌≡◌, None, Some};
ghost use Rattle.host_hub.specs.Behind.{HubParts, IsRecorded};
ghost use Rattle.host_hub.specs.HubCalls.{IsAnswer, Turns};
ghost use Rattle.host_hub.specs.LinkCalls.{CanAnswer, Polls, Sends};

use crate::hub_core::HubCore;
use crate::recorded::accounts_are_turned;
use crate::{End, Turn};
use tmc_base::{Link, PollStep, SendStep};

/// The most bytes that one turn polls.
const PIECE: usize = 8_192;

/// One turn.
pub(crate) fn turn<L: Link>(link: &mut L, core: &mut HubCore) -> Turn
    requires running { core.old.end ≡ None }
    requires recorded { IsRecorded L.told L.counts (record { link = link.old; core = core.old }) }
    ensures { Turns L.told L.counts L.sends L.polls result (record { link = link.old; core = core.old }) (record { link = link.new; core = core.new }) }
{
    accounts_are_turned();
    core.turned = core.turned.saturating_add(1);
    let sent = send(link, core);
    if let Some(end) = core.end {
        return Turn::Ended(end);
    }
    let came = poll(link, core);
    answer(core.end, sent, came)
}

/// Sends the outbox, where it is not empty.
fn send<L: Link>(link: &mut L, core: &mut HubCore) -> Option<SendStep>
    requires running { core.old.end ≡ None }
    requires recorded { IsRecorded L.told L.counts (record { link = link.old; core = core.old }) }
    ensures { Sends L.told L.counts L.sends result (record { link = link.old; core = core.old }) (record { link = link.new; core = core.new }) }
{
    accounts_are_turned();
    if core.outbox().is_empty() {
        return None;
    }
    let step = link.send(core.outbox());
    match step {
        SendStep::Took(n) => core.sent(n),
        SendStep::Failed => core.fail(),
        SendStep::Idle | SendStep::Memory => (),
    }
    Some(step)
}

/// Polls the link, and takes what came.
fn poll<L: Link>(link: &mut L, core: &mut HubCore) -> PollStep
    requires running { core.old.end ≡ None }
    requires recorded { IsRecorded L.told L.counts (record { link = link.old; core = core.old }) }
    ensures { Polls L.told L.counts L.polls result (record { link = link.old; core = core.old }) (record { link = link.new; core = core.new }) }
{
    accounts_are_turned();
    let mut piece = [0; PIECE];
    let step = link.poll(&mut piece);
    match step {
        PollStep::Got(n) => core.feed(&piece[..n]),
        PollStep::Closed => core.close(),
        PollStep::Failed => core.fail(),
        PollStep::Idle | PollStep::Memory => (),
    }
    step
}

/// What the turn answers.
fn answer(end: Option<End>, sent: Option<SendStep>, came: PollStep) -> Turn
    requires { CanAnswer end sent came }
    ensures { IsAnswer result end sent (Some came) }
{
    if let Some(end) = end {
        return Turn::Ended(end);
    }
    match (sent, came) {
        (Some(SendStep::Took(_)), _) | (_, PollStep::Got(_)) => Turn::Moved,
        (Some(SendStep::Memory), _) | (_, PollStep::Memory) => Turn::Memory,
        _ => Turn::Idle,
    }
}
