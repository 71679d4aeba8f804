ghost use Rattle.std.specs.Prelude.{◌≡◌, ◌≢◌, ◌≤◌, ◌++◌, [], true, false, length, take, drop, if◌then◌else◌, Ok, Err, IfOk, OnOk, OnErr};
ghost use Rattle.tmc_device.specs.Seen.{is_closed};
ghost use Rattle.tmc_device.specs.declared.drove.Drove.{Drove};
ghost use Rattle.usbip_export.specs.Seen.{Seen, standing, IsCaughtUp};
ghost use Rattle.usbip_export.specs.Serving.{WorksBy};
ghost use Rattle.usbip_export.specs.Steps.{AreArrivals, AreCalming};
ghost use Rattle.usbip_export.specs.Events.{Drives, IsDeclined, IsDue, IsCalm};
ghost use Rattle.tmc_world.specs.Crossing.{uncrossed, IsOpen, IsShut, IsSound, HasFed, HasRoom, Hears};

use crate::tape::Tape;
use std::alloc::Global;
use std::marker::Model;
use tmc_base::Memory;
use tmc_device::Drove;
use usbip_export::{DevEvent, Fed, Log, Node};

/// A node in memory, and the bytes that crossed the link to it.
#[derive(Drop)]
pub(crate) struct Line {
    node: Node,
    sent: Vec<u8>,
    /// How many bytes the node was fed: all that were sent while it was open.
    fed: usize,
    taken: Tape,
    /// Whether something in the node waits for memory: to be taken in or spelled, or room for the bytes that are to be taken.
    late: bool,
}

impl Model for Line {
    ghost use Rattle.tmc_world.specs.Crossing.{Crossing, IsSound, HasRoom};

    ghost Value = { Crossing };

    ghost view = { λ a. record { node = a.node; sent = a.sent.items; fed = a.fed; taken = a.taken.bytes; late = a.late } };

    ghost invariant = { λ a. IsSound (record { node = a.node; sent = a.sent.items; fed = a.fed; taken = a.taken.bytes; late = a.late }) × HasRoom a.late a.node a.taken.room };
}

impl Line {
    /// An imported instrument at power-on, and nothing sent or taken.
    pub(crate) fn new(alloc: Global) -> Result<Line, Memory>
        ensures { IfOk result (λ line. line ≡ uncrossed) }
    {
        Ok(Line {
            node: Node::imported(alloc)?,
            sent: Vec::new(alloc),
            fed: 0,
            taken: Tape::new(alloc),
            late: false,
        })
    }

    pub(crate) fn sent(&self) -> &[u8]
        ensures { result.now ≡ self.now.sent }
    {
        self.sent.as_slice()
    }

    pub(crate) fn taken(&self) -> &[u8]
        ensures { result.now ≡ self.now.taken }
    {
        self.taken.as_slice()
    }

    pub(crate) fn log(&self) -> &Log
        ensures { result.now.entries ≡ (standing self.now.node).log }
    {
        self.node.log()
    }

    pub(crate) fn closed(&self) -> bool
        ensures { result ≡ is_closed (standing self.now.node).presence }
    {
        self.node.closed()
    }

    /// How many bytes wait to be taken.
    pub(crate) fn waiting(&self) -> usize
        ensures { result ≡ length self.now.node.out }
    {
        self.node.pending_out().len()
    }

    pub(crate) fn is_late(&self) -> bool
        ensures { result ≡ self.now.late }
    {
        self.late
    }

    /// Sends these bytes. A node that is open is fed them.
    pub(crate) fn send(&mut self, bytes: &[u8]) -> Result<(), Memory>
        ensures hears { OnOk result (Hears bytes.now self.old.node self.new.node self.new.late) }
        ensures sent { OnOk result (self.new.sent ≡ self.old.sent ++ bytes.now) }
        ensures fed { OnOk result (HasFed bytes.now self.old self.new) }
        ensures taken { OnOk result (self.new.taken ≡ self.old.taken) }
        ensures err { OnErr result (self.new ≡ self.old) }
        ensures sound { IsSound self.new }
    {
        let before = self.sent.len();
        self.sent.extend_from_slice(bytes)?;
        let shut = self.node.closed();
        if !feed(&mut self.node, bytes) {
            self.sent.truncate(before);
            return Err(Memory);
        }
        self.fed = fed(shut, self.fed, self.sent.as_slice().len());
        let spelled = spell(&mut self.node);
        self.late = lacks(&self.node, &mut self.taken, spelled);
        Ok(())
    }

    /// Lets the instrument do what the event says.
    pub(crate) fn act(&mut self, event: DevEvent) -> Drove
        ensures applied { result ≡ Drove.Applied → Drives event self.old.node self.new.node }
        ensures is { self.new ≡ record self.old { node = self.new.node; late = self.new.late } }
        ensures sound { IsSound self.new }
        ensures none { result ≡ Drove.NotEnabled → IsDeclined event self.old.node }
        ensures enabled { result ≡ Drove.Memory → IsDue event self.old.node }
        ensures kept { result ≢ Drove.Applied → self.new ≡ self.old }
    {
        let drove = self.node.drive(event);
        if let Drove::Applied = drove {
            let spelled = !self.node.wants_memory();
            self.late = lacks(&self.node, &mut self.taken, spelled);
        }
        drove
    }

    /// Takes in and spells what waits for memory.
    pub(crate) fn catch_up(&mut self)
        ensures works { WorksBy AreArrivals [] [] self.old.node self.new.node }
        ensures is { self.new ≡ record self.old { node = self.new.node; late = self.new.late } }
        ensures sound { IsSound self.new }
    {
        let spelled = catch_up(&mut self.node);
        self.late = lacks(&self.node, &mut self.taken, spelled);
    }

    /// Makes calm moves until none is enabled.
    pub(crate) fn calm(&mut self)
        ensures works { WorksBy AreCalming [] [] self.old.node self.new.node }
        ensures calm { self.new.late ≡ false → IsCalm self.new.node }
        ensures is { self.new ≡ record self.old { node = self.new.node; late = self.new.late } }
        ensures sound { IsSound self.new }
    {
        let spelled = self.node.calm().is_ok();
        self.late = lacks(&self.node, &mut self.taken, spelled);
    }

    /// Takes the first bytes that wait into the front of `buf`. Takes no memory.
    pub(crate) fn take(&mut self, buf: &mut [u8], count: usize)
        requires unlate { self.old.late ≡ false }
        requires there { count ≤ length self.old.node.out }
        requires room { count ≤ length buf.old }
        ensures bytes { take count buf.new ≡ take count self.old.node.out }
        ensures taken { self.new ≡ record self.old {
          node = record self.old.node { out = drop count self.old.node.out };
          taken = self.old.taken ++ take count self.old.node.out;
        } }
    {
        let front = &self.node.pending_out()[..count];
        self.taken.push(front);
        buf[..count].copy_from_slice(front);
        self.node.sent_out(count);
    }
}

/// Whether something waits for memory: what is not spelled, or room for the bytes that are to be taken.
fn lacks(node: &Node, taken: &mut Tape, spelled: bool) -> bool
    ensures bytes { taken.new.bytes ≡ taken.old.bytes }
    ensures spelled { result ≡ false → spelled ≡ true }
    ensures room { HasRoom result node.now taken.new.room }
{
    !spelled || !taken.reserve(node.pending_out().len())
}

/// How many bytes a node was fed behind a send: as many as before where it is shut, or all that were sent.
fn fed(shut: bool, before: usize, sent: usize) -> usize
    ensures { result ≡ (if shut then before else sent) }
{
    if shut { before } else { sent }
}

/// Feeds a node. False where memory is wanting, and nothing has changed.
fn feed(node: &mut Node, bytes: &[u8]) -> bool
    ensures works { result ≡ true → IsOpen node.old → WorksBy AreArrivals bytes.now [] node.old node.new }
    ensures shut { IsShut node.old → node.new ≡ node.old }
    ensures caught_up { result ≡ true → node.new.wanting ≡ false → IsOpen node.new → IsCaughtUp node.new }
    ensures memory { result ≡ false → node.new ≡ node.old }
{
    match node.feed(bytes) {
        Fed::Ok | Fed::Refused(_) => true,
        Fed::Memory => false,
    }
}

/// Behind a feed: tells whether each answer is spelled, and spells those of a closed node.
fn spell(node: &mut Node) -> bool
    requires imported { node.old.imported ≡ true }
    requires fed { node.old.wanting ≡ false → IsOpen node.old → IsCaughtUp node.old }
    ensures works { WorksBy AreArrivals [] [] node.old node.new }
    ensures caught_up { result ≡ true → IsOpen node.new → IsCaughtUp node.new }
    ensures spelled { result ≡ true → node.new.puts ≡ [] }
{
    if node.closed() {
        node.calm().is_ok()
    } else {
        !node.wants_memory()
    }
}

/// Takes in and spells what waits in a node. False where memory is wanting.
fn catch_up(node: &mut Node) -> bool
    requires imported { node.old.imported ≡ true }
    ensures works { WorksBy AreArrivals [] [] node.old node.new }
    ensures spelled { result ≡ true → node.new.puts ≡ [] }
{
    if node.closed() {
        return spell(node);
    }
    if !feed(node, &[]) {
        return false;
    }
    spell(node)
}
