ghost use Rattle.std.specs.Prelude.{◌≡◌, ◌≤◌, ℕ, OnOk, OnErr, IfOk, length, []};
ghost use Rattle.instr_plain.specs.Status.{enabled, is_unread, request_behind};
ghost use Rattle.instr_plain.specs.Standing.{at_power_on, polled_byte};
ghost use Rattle.instr_plain.specs.Exec.{Exec, response_most};
ghost use Rattle.instr_plain.specs.Log.{After};

use crate::output::Output;
use crate::run::execute;
use crate::status::{POWER_ON, QUERY_ERROR, request_behind};
use crate::{Plain, RemoteAct, RemoteState};
use std::alloc::Global;
use std::marker::Model;
use tmc_base::Memory;

/// The instrument: its state, the response that waits to be read, and whether it requests service.
///
/// Each call that changes it is one entry of its log, so behind any list of calls it stands for the fold over
/// their entries.
#[derive(Drop)]
pub struct Instrument {
    alloc: Global,
    state: Plain,
    output: Output,
    taken: usize,
    rqs: bool,
}

impl Model for Instrument {
    ghost use Rattle.std.specs.Prelude.{◌≤◌, drop, length};
    ghost use Rattle.instr_plain.specs.Standing.{Standing};

    ghost Value = { Standing };

    ghost view = { λ a. record { state = a.state; unread = drop a.taken a.output.bytes; rqs = a.rqs } };

    ghost invariant = { λ a. a.taken ≤ length a.output.bytes };
}

impl Instrument {
    ghost use Rattle.instr_plain.specs.declared.log.LogEntry.TheVariants.{Exec as exec_entry, Took, Interrupt, Bare, Trigger, Poll, Clear, Remote};

    /// The instrument at power-on. Takes the memory of the largest response, 65,535 bytes.
    pub fn new(alloc: Global) -> Result<Instrument, Memory>
        ensures { IfOk result (λ instrument. instrument ≡ at_power_on) }
    {
        Ok(Instrument {
            alloc,
            state: Plain {
                esr: POWER_ON,
                ese: 0,
                sre: 0,
                conf: 0,
                acquisitions: 0,
                remote: RemoteState::Local,
            },
            output: Output::new(alloc)?,
            taken: 0,
            rqs: false,
        })
    }

    /// Executes a program message of at most 4,096 bytes. Its response becomes the unread output, and is empty
    /// where nothing answers. After [`Memory`] nothing has changed.
    pub fn execute(&mut self, message: &[u8]) -> Result<(), Memory>
        requires { length message.now ≤ 4096 }
        ensures executed { OnOk result (Exec self.old.state message.now self.new.state self.new.unread) }
        ensures entry { OnOk result ((seq : ℕ) → After self.old (exec_entry seq message.now) self.new) }
        ensures err { OnErr result (self.new ≡ self.old) }
    {
        let before = self.enabled();
        execute(self.alloc, message, &mut self.state, &mut self.output)?;
        self.taken = 0;
        self.judge(before);
        Ok(())
    }

    /// The bytes of the response that were not read, at most 65,535.
    pub fn response(&self) -> &[u8]
        ensures unread { result.now ≡ self.now.unread }
        ensures short { length result.now ≤ response_most }
    {
        &self.output.bytes()[self.taken..]
    }

    /// The status byte, with RQS as bit 6. Clears nothing.
    pub fn status(&self) -> u8
        ensures { result ≡ polled_byte self.now }
    {
        self.state.status_byte(self.is_unread(), self.rqs)
    }

    /// Polls the status byte, which takes RQS back behind it (IEEE 488.2, section 11.2.2.1).
    pub fn poll_status(&mut self) -> u8
        ensures byte { result ≡ polled_byte self.old }
        ensures entry { (seq : ℕ) → After self.old (Poll seq) self.new }
    {
        let before = self.enabled();
        let byte = self.status();
        self.rqs = false;
        self.judge(before);
        byte
    }

    /// Triggers one acquisition.
    pub fn trigger(&mut self)
        ensures { (seq : ℕ) → After self.old (Trigger seq) self.new }
    {
        let before = self.enabled();
        self.state.trigger();
        self.judge(before);
    }

    /// Changes who may operate the instrument.
    pub fn remote(&mut self, act: RemoteAct)
        ensures { After self.old (Remote act) self.new }
    {
        let before = self.enabled();
        self.state.remote = self.state.remote.behind(act);
        self.judge(before);
    }

    /// So many bytes of the response are read.
    pub fn took(&mut self, n: usize)
        requires { n ≤ length self.old.unread }
        ensures { After self.old (Took n) self.new }
    {
        let before = self.enabled();
        let left = self.response().len() - n;
        self.taken = self.output.bytes().len() - left;
        self.judge(before);
    }

    /// A message interrupts the response, which is dropped (section 6.3.2.3).
    pub fn interrupt(&mut self)
        ensures { After self.old Interrupt self.new }
    {
        let before = self.enabled();
        self.drop_output();
        self.state.set_event(QUERY_ERROR);
        self.judge(before);
    }

    /// A response is requested where there is none (section 6.3.2.2).
    pub fn bare(&mut self)
        ensures { After self.old Bare self.new }
    {
        let before = self.enabled();
        self.state.set_event(QUERY_ERROR);
        self.judge(before);
    }

    /// A clear drops the unread output.
    pub fn clear(&mut self)
        ensures { After self.old Clear self.new }
    {
        let before = self.enabled();
        self.drop_output();
        self.judge(before);
    }

    /// Whether output is unread, which is MAV.
    fn is_unread(&self) -> bool
        ensures { result ≡ is_unread self.now.unread }
    {
        !self.response().is_empty()
    }

    /// The bits of the status byte that may request service.
    fn enabled(&self) -> u8
        ensures { result ≡ enabled self.now.state (is_unread self.now.unread) }
    {
        self.state.enabled(self.is_unread())
    }

    /// Judges RQS behind an entry, by the bits that were enabled before it.
    fn judge(&mut self, before: u8)
        ensures { self.new ≡ record self.old {
          rqs = request_behind before (enabled self.old.state (is_unread self.old.unread)) self.old.rqs;
        } }
    {
        self.rqs = request_behind(before, self.enabled(), self.rqs);
    }

    /// Drops the unread output.
    fn drop_output(&mut self)
        ensures { self.new ≡ record self.old { unread = [] } }
    {
        self.output.begin();
        self.taken = 0;
    }
}
