ghost use Rattle.std.specs.Prelude.{◌≡◌, ◌+◌, ◌<◌, [], false, IfOk, OnOk};
ghost use Rattle.tmc_law.specs.State.{start};

use crate::outputs::Outputs;
use crate::packets::Packets;
use crate::running::Running;
use crate::side::InTransfer;
use crate::transfer::OutTransfer;
use endpoint_pipes::Pipes;
use msg_exchange::Exchange;
use std::alloc::Global;
use tmc_base::Memory;

/// What a device consists of.
#[derive(Drop)]
pub(crate) struct Body {
    pub(crate) alloc: Global,
    pub(crate) exchange: Exchange,
    pub(crate) pipes: Pipes,
    /// Whether the status byte was polled for the first control submit. Says nothing where none is pending.
    pub(crate) polled: bool,
    /// The Bulk-OUT transfer in progress. What came behind its header is with the exchange.
    pub(crate) transfer: OutTransfer,
    /// The Bulk-IN transfer in progress.
    pub(crate) side: InTransfer,
    pub(crate) running: Running,
    pub(crate) packets: Packets,
    pub(crate) unplugged: bool,
    pub(crate) outputs: Outputs,
}

impl Body {
    ghost use Rattle.tmc_device.specs.Body.{seen_of, HasRoom, IsPrepared};

    /// At power-on.
    pub(crate) fn new(alloc: Global) -> Result<Body, Memory>
        ensures { IfOk result (λ body. seen_of body ≡ record { state = start; puts = [] }) }
    {
        Ok(Body {
            alloc,
            exchange: Exchange::new(alloc)?,
            pipes: Pipes::new(alloc)?,
            polled: false,
            transfer: OutTransfer::new(),
            side: InTransfer::new(alloc),
            running: Running::Nothing,
            packets: Packets::new(),
            unplugged: false,
            outputs: Outputs::new(alloc),
        })
    }

    /// Takes the memory of a step: for a log entry, and for the answers to all pending submits and two more.
    pub(crate) fn prepare(&mut self) -> Result<(), Memory>
        ensures room { OnOk result (HasRoom self.new) }
        ensures same { IsPrepared self.old self.new }
    {
        self.exchange.reserve()?;
        self.outputs.reserve(self.pipes.len() as usize + 2)
    }
}
