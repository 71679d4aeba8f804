ghost use Rattle.std.specs.Prelude.{◌≡◌, ◌≤◌, [], vec_capacity};
ghost use Rattle.tmc_wire.specs.declared.class_request.ClassRequest.TheVariants as request;
ghost use Rattle.tmc_law.specs.Aborts.{check_out_layout, check_in_layout};

use crate::answer::Asked;
use crate::body::Body;
use crate::running::Running;
use tmc_wire::{STATUS_PENDING, STATUS_SPLIT_NOT_IN_PROGRESS, STATUS_SUCCESS};

/// The answer to CHECK_ABORT_BULK_OUT_STATUS: NBYTES_RXD is 0, since the transfer is dropped whole.
pub(crate) fn out_layout(status: u8) -> [u8; 8]
    ensures { result ≡ check_out_layout status }
{
    [status, 0, 0, 0, 0, 0, 0, 0]
}

/// The answer to CHECK_ABORT_BULK_IN_STATUS: bmAbortBulkIn, whose bit 0 says that a packet is still to be read, and
/// NBYTES_TXD.
pub(crate) fn in_layout(status: u8, abort_bulk_in: u8, given: u32) -> [u8; 8]
    ensures { result ≡ check_in_layout status abort_bulk_in given }
{
    let [first, second, third, fourth] = given.to_le_bytes();
    [status, abort_bulk_in, 0, 0, first, second, third, fourth]
}

impl Body {
    ghost use Rattle.tmc_device.specs.Body.{state_of, IsReady};
    ghost use Rattle.tmc_device.specs.Control.{IsAsked, ServesFirst};
    ghost use Rattle.tmc_device.specs.declared.answer.TheConstants.{LAYOUT_MAX};

    /// CHECK_ABORT_BULK_OUT_STATUS (USBTMC 1.0, section 4.2.1.3).
    pub(crate) fn check_out(&mut self, asked: &Asked, buffer: Vec<u8>)
        requires ready { IsReady self.old }
        requires asked { IsAsked (state_of self.old) asked.now }
        requires empty { buffer.items ≡ [] }
        requires capacity { LAYOUT_MAX ≤ vec_capacity buffer }
        ensures { ServesFirst request.CheckOut asked.now self.old self.new }
    {
        match self.running {
            Running::AbortsOut => {
                self.reply(asked, &out_layout(STATUS_SUCCESS), buffer);
                self.running = Running::Nothing;
            }
            _ => self.reply(asked, &out_layout(STATUS_SPLIT_NOT_IN_PROGRESS), buffer),
        }
    }

    /// CHECK_ABORT_BULK_IN_STATUS (USBTMC 1.0, section 4.2.1.5).
    pub(crate) fn check_in(&mut self, asked: &Asked, buffer: Vec<u8>)
        requires ready { IsReady self.old }
        requires asked { IsAsked (state_of self.old) asked.now }
        requires empty { buffer.items ≡ [] }
        requires capacity { LAYOUT_MAX ≤ vec_capacity buffer }
        ensures { ServesFirst request.CheckIn asked.now self.old self.new }
    {
        match self.running {
            Running::AbortsIn { wanting, given } => {
                if wanting {
                    self.reply(asked, &in_layout(STATUS_PENDING, 1, given), buffer);
                } else {
                    self.reply(asked, &in_layout(STATUS_SUCCESS, 0, given), buffer);
                    self.running = Running::Nothing;
                }
            }
            _ => self.reply(
                asked,
                &in_layout(STATUS_SPLIT_NOT_IN_PROGRESS, 0, 0),
                buffer,
            ),
        }
    }

    /// CHECK_CLEAR_STATUS (USBTMC 1.0, section 4.2.1.7). bmClear is 0, since no packet is to be read.
    pub(crate) fn check_clear(&mut self, asked: &Asked, buffer: Vec<u8>)
        requires ready { IsReady self.old }
        requires asked { IsAsked (state_of self.old) asked.now }
        requires empty { buffer.items ≡ [] }
        requires capacity { LAYOUT_MAX ≤ vec_capacity buffer }
        ensures { ServesFirst request.CheckClear asked.now self.old self.new }
    {
        match self.running {
            Running::Clears => {
                self.reply(asked, &[STATUS_SUCCESS, 0], buffer);
                self.running = Running::Nothing;
            }
            _ => self.reply(asked, &[STATUS_SPLIT_NOT_IN_PROGRESS, 0], buffer),
        }
    }
}
