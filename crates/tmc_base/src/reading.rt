ghost use Rattle.std.specs.Prelude.{◌≡◌, ◌<◌, ◌≤◌, ℕ, List, length, IfOk, Err};
ghost use Rattle.tmc_base.specs.declared.reading.ReadFault.TheVariants.{Failed};
ghost use Rattle.tmc_base.specs.Faults.{Rose};
ghost use Rattle.tmc_base.specs.Source.{GivesFirst, HasEnded};
ghost use Rattle.tmc_base.specs.Reading.{NoRead, AtEnd, AtFault, ReadRun, ReadsAtMost};

use crate::{Memory, ReadStep, Source};
use std::alloc::Global;
use thiserror::Error;

/// Why a source was not read.
#[derive(Clone, Copy, Debug, PartialEq, Eq, Error)]
pub enum ReadFault {
    /// A read failed, and the source's count of faults rose.
    #[error("the input could not be read; check where it comes from and try again")]
    Failed,
    #[error("out of memory; free some and try again")]
    Memory,
}

/// The most bytes that one read asks for.
const PIECE: usize = 4_096;

/// Reads a source until it ends or has given `most` bytes, and no byte more. No read stands behind one that ended or
/// failed.
pub fn read_up_to<S: Source>(
    alloc: Global,
    source: &mut S,
    most: usize,
) -> Result<Vec<u8>, ReadFault>
    ensures first { IfOk result (λ bytes. GivesFirst bytes.items (S.left source.old) (S.left source.new)) }
    ensures most { IfOk result (λ bytes. length bytes.items ≤ most) }
    ensures ended { IfOk result (λ bytes. length bytes.items < most → HasEnded (S.left source.new)) }
    ensures ok_counts { IfOk result (λ _. S.faults source.new ≡ S.faults source.old) }
    ensures failed { result ≡ Err Failed → Rose (S.faults source.old) (S.faults source.new) }
    ensures memory { result ≡ Err ReadFault.Memory → S.faults source.new ≡ S.faults source.old }
    ensures short_run { IfOk result (λ bytes. length bytes.items < most → ReadRun S.reads source.old source.new AtEnd bytes.items) }
    ensures full_run { IfOk result (λ bytes. length bytes.items ≡ most → ReadRun S.reads source.old source.new NoRead bytes.items) }
    ensures failed_run { result ≡ Err Failed → ReadsAtMost most (ReadRun S.reads source.old source.new AtFault) }
    ensures memory_run { result ≡ Err ReadFault.Memory → ReadsAtMost most (ReadRun S.reads source.old source.new NoRead) }
{
    let mut bytes = Vec::new(alloc);
    let mut piece = [0u8; PIECE];
    'pieces: while bytes.len() < most {
        let room = PIECE.min(most - bytes.len());
        match source.read(&mut piece[..room]) {
            ReadStep::Got(n) => match bytes.extend_from_slice(&piece[..n]) {
                Ok(()) => (),
                Err(_) => return Err(ReadFault::Memory),
            },
            ReadStep::End => return Ok(bytes),
            ReadStep::Failed => return Err(ReadFault::Failed),
        }
    }
    Ok(bytes)
}

/// Reads a source until it ends. No read stands behind one that ended or failed.
pub fn read_all<S: Source>(alloc: Global, source: &mut S) -> Result<Vec<u8>, ReadFault>
    ensures first { IfOk result (λ bytes. GivesFirst bytes.items (S.left source.old) (S.left source.new)) }
    ensures ended { IfOk result (λ _. HasEnded (S.left source.new)) }
    ensures ok_counts { IfOk result (λ _. S.faults source.new ≡ S.faults source.old) }
    ensures failed { result ≡ Err Failed → Rose (S.faults source.old) (S.faults source.new) }
    ensures memory { result ≡ Err ReadFault.Memory → S.faults source.new ≡ S.faults source.old }
    ensures ok_run { IfOk result (λ bytes. ReadRun S.reads source.old source.new AtEnd bytes.items) }
    ensures failed_run { result ≡ Err Failed → (bytes : List ℕ) × ReadRun S.reads source.old source.new AtFault bytes }
    ensures memory_run { result ≡ Err ReadFault.Memory → (bytes : List ℕ) × ReadRun S.reads source.old source.new NoRead bytes }
{
    // No `Vec` has so many bytes, so the source ends before it has given them.
    read_up_to(alloc, source, usize::MAX)
}
