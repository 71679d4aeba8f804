//! The answers to class requests, by their layouts. A count is little-endian.
//!
//! | Answer to | Offset | Size | Field |
//! |---|---|---|---|
//! | each request | 0 | 1 | USBTMC_status |
//! | an abort | 1 | 1 | bTag of the transfer that was in progress |
//! | a check of an abort of Bulk-OUT | 1 | 1 | reserved |
//! | a check of an abort of Bulk-IN | 1 | 1 | bmAbortBulkIn |
//! | a check of an abort | 2 | 2 | reserved |
//! | a check of an abort | 4 | 4 | NBYTES_RXD of Bulk-OUT, NBYTES_TXD of Bulk-IN |
//! | CHECK_CLEAR_STATUS | 1 | 1 | bmClear |
//! | READ_STATUS_BYTE | 1 | 1 | the request's tag |
//! | READ_STATUS_BYTE | 2 | 1 | the status byte |
//! | GET_CAPABILITIES | 1 | 1 | reserved |
//! | GET_CAPABILITIES | 2 | 22 | what the device can do |

ghost use Rattle.std.specs.Prelude.{◌≡◌, ◌<◌, ◌^◌, ◌↔◌, length, Ok, Err, MatchOption};
ghost use Rattle.tmc_base.specs.declared.field.Field.{Field};
ghost use Rattle.tmc_wire.specs.declared.class_answer.ClassAnswer.{ClassAnswer};
ghost use Rattle.tmc_wire.specs.ClassAnswer.{answer_length, IsAnswer, IsStatusAlone, HasSecond, HasCount, HasStatusByte, HasCapabilities};
ghost use Rattle.tmc_wire.specs.Short.{short_answer};

use crate::ClassRequest;
use crate::usbtmc::CAPABILITIES_ANSWER;
use tmc_base::{Field, Layer, Name};

/// The answer to a class request: USBTMC 1.0 section 4.2.1 and USB488 1.0 section 4.3.
#[derive(Clone, Copy, Debug, PartialEq, Eq)]
pub struct ClassAnswer {
    /// USBTMC_status, as [`crate::STATUS_SUCCESS`] and the others are.
    pub status: u8,
    /// The answer's second byte: a tag, bmAbortBulkIn or bmClear; 0 where the layout has one byte.
    pub second: u8,
    /// The count of a check of an abort, in bytes; the third byte of a READ_STATUS_BYTE answer; else 0.
    pub bytes: u32,
}

/// The answer that these bytes are, or `None` where they are too few.
fn answer_of(request: ClassRequest, bytes: &[u8]) -> Option<ClassAnswer>
    ensures { MatchOption result
        (length bytes.now < answer_length request)
        (λ answer. IsAnswer request answer bytes.now) }
{
    match request {
        ClassRequest::Clear
        | ClassRequest::Pulse
        | ClassRequest::Ren { .. }
        | ClassRequest::GoLocal
        | ClassRequest::Lockout => status_alone(bytes),
        ClassRequest::AbortOut { .. } | ClassRequest::AbortIn { .. } | ClassRequest::CheckClear => {
            status_and_second(bytes)
        }
        ClassRequest::CheckOut | ClassRequest::CheckIn => with_count(bytes),
        ClassRequest::Capabilities => capabilities(bytes),
        ClassRequest::ReadStatus { .. } => with_status_byte(bytes),
    }
}

/// The answer to this request. A count is little-endian. What follows the layout is not looked at.
///
/// # Errors
///
/// `Control`, `Length` with the number of bytes that came, where they are fewer than the layout has.
pub fn read_answer(request: ClassRequest, bytes: &[u8]) -> Result<ClassAnswer, Field>
    ensures answer { (answer : ClassAnswer) → (result ≡ Ok answer) ↔ IsAnswer request answer bytes.now }
    ensures fault { (field : Field) → (result ≡ Err field)
        ↔ ((field ≡ short_answer bytes.now) × (length bytes.now < answer_length request)) }
{
    match answer_of(request, bytes) {
        Some(answer) => Ok(answer),
        None => Err(Field {
            layer: Layer::Control,
            name: Name::Length,
            offset: bytes.len() as u32,
        }),
    }
}

fn status_alone(bytes: &[u8]) -> Option<ClassAnswer>
    ensures { MatchOption result
        (length bytes.now < 1)
        (λ answer. IsStatusAlone answer bytes.now) }
{
    match bytes {
        [status, ..] => Some(ClassAnswer {
            status: *status,
            second: 0,
            bytes: 0,
        }),
        [] => None,
    }
}

fn status_and_second(bytes: &[u8]) -> Option<ClassAnswer>
    ensures { MatchOption result
        (length bytes.now < 2)
        (λ answer. HasSecond answer bytes.now) }
{
    match bytes {
        [status, second, ..] => Some(ClassAnswer {
            status: *status,
            second: *second,
            bytes: 0,
        }),
        _ => None,
    }
}

fn with_count(bytes: &[u8]) -> Option<ClassAnswer>
    ensures { MatchOption result
        (length bytes.now < 8)
        (λ answer. HasCount answer bytes.now) }
{
    match bytes {
        [status, second, _, _, b0, b1, b2, b3, ..] => Some(ClassAnswer {
            status: *status,
            second: *second,
            bytes: u32::from_le_bytes([*b0, *b1, *b2, *b3]),
        }),
        _ => None,
    }
}

fn with_status_byte(bytes: &[u8]) -> Option<ClassAnswer>
    ensures { MatchOption result
        (length bytes.now < 3)
        (λ answer. HasStatusByte answer bytes.now) }
{
    match bytes {
        [status, second, status_byte, ..] => Some(ClassAnswer {
            status: *status,
            second: *second,
            bytes: u32::from(*status_byte),
        }),
        _ => None,
    }
}

fn capabilities(bytes: &[u8]) -> Option<ClassAnswer>
    ensures { MatchOption result
        (length bytes.now < 24)
        (λ answer. HasCapabilities answer bytes.now) }
{
    if bytes.len() < usize::from(CAPABILITIES_ANSWER) {
        return None;
    }
    status_and_second(bytes)
}
