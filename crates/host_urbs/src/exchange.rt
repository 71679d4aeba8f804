ghost use Rattle.std.specs.Prelude.{◌≡◌, ℕ, ◌+◌, ◌<◌, ◌≤◌, ◌++◌, ◌∷◌, [], List, IfOk};
ghost use Rattle.host_urbs.specs.Attach.{At, Undecided};
ghost use Rattle.host_urbs.specs.Attaching.{Goes, sent_whole, took_byte};

use crate::attached::AttachFault;
use tmc_base::{Link, PollStep, SendStep};

/// Sends a request whole, by at most `left` calls on the link.
pub(crate) fn send_all<L: Link>(
    link: &mut L,
    left: &mut u64,
    request: &[u8],
) -> Result<(), AttachFault>
    ensures goes { (turns : ℕ) (busid : List ℕ) (s : At) → s.unsent ≡ request.now → s.calls + left.old ≡ turns
        → Goes L.told L.counts L.sends L.polls turns busid s link.old left.new link.new (λ done t. sent_whole s request.now t) result }
{
    let mut at = 0;
    'sends: while at < request.len() {
        if *left == 0 {
            return Err(AttachFault::Spent);
        }
        *left -= 1;
        match link.send(&request[at..]) {
            SendStep::Took(n) => at += n,
            SendStep::Idle => (),
            SendStep::Failed => return Err(AttachFault::LinkFault),
            SendStep::Memory => return Err(AttachFault::Memory),
        }
    }
    Ok(())
}

/// Takes the next byte of the answer that is awaited, by at most `left` calls on the link. So none behind it is taken.
pub(crate) fn take_byte<L: Link>(link: &mut L, left: &mut u64) -> Result<u8, AttachFault>
    ensures goes { (turns : ℕ) (busid : List ℕ) (s : At) → s.unsent ≡ [] → Undecided s.stage s.rest → s.calls + left.old ≡ turns
        → Goes L.told L.counts L.sends L.polls turns busid s link.old left.new link.new (λ byte t. took_byte s byte t) result }
    ensures fewer { IfOk result (λ _. left.new < left.old) }
{
    let mut buf = [0u8; 1];
    'polls: while *left > 0 {
        *left -= 1;
        match link.poll(&mut buf) {
            PollStep::Got(_) => return Ok(buf[0]),
            PollStep::Idle => (),
            PollStep::Closed => return Err(AttachFault::Closed),
            PollStep::Failed => return Err(AttachFault::LinkFault),
            PollStep::Memory => return Err(AttachFault::Memory),
        }
    }
    Err(AttachFault::Spent)
}
