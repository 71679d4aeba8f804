//! The program as the shell runs it: the words that it is given, and the exit code that it leaves.

ghost use Rattle.std.specs.Prelude.{◌≡◌, ◌↔◌, Err, IfOk, map, drop, [], string_bytes};
ghost use Rattle.std.specs.Process.{exit_status};
ghost use Rattle.tmc_base.specs.Faults.{Rose};
ghost use Rattle.tmc_base.specs.Reading.{ReadRun};
ghost use Rattle.tmc_base.specs.Writing.{WriteRun};
ghost use Rattle.tmc_tool.specs.Tool.{code_of, Ends};
ghost use Rattle.tmc_tool.specs.declared.status.Status.{Status};
ghost use Rattle.tmc_tool.specs.declared.status.Status.TheVariants.{Usage, NoMemory};

use crate::status::Status;
use crate::tool::tool_main;
use std::alloc::{AllocError, Global};
use std::io;
use std::process::ExitCode;
use tmc_base::{Sink, Source};

/// Why the words behind the program's name were not read.
#[derive(Clone, Copy, Debug, PartialEq, Eq)]
pub enum WordsFault {
    /// A word is not UTF-8.
    NotText,
    Memory,
}

impl From<io::Error> for WordsFault {
    ghost use Rattle.std.specs.IoError.{error_kind};
    ghost use Rattle.std.specs.declared.io.ErrorKind.TheVariants.{InvalidData};
    ghost use Rattle.tmc_tool.specs.declared.shell.WordsFault.TheVariants.{NotText};

    ghost from_gives = { λ error fault. (fault ≡ NotText) ↔ (error_kind error ≡ InvalidData) };

    fn from(error: io::Error) -> WordsFault {
        match error.kind() {
            io::ErrorKind::InvalidData => WordsFault::NotText,
            _ => WordsFault::Memory,
        }
    }
}

impl From<AllocError> for WordsFault {
    ghost use Rattle.tmc_tool.specs.declared.shell.WordsFault.TheVariants.{Memory};

    ghost from_gives = { λ _ fault. fault ≡ Memory };

    fn from(_error: AllocError) -> WordsFault {
        WordsFault::Memory
    }
}

/// The words behind the program's name, which is the first of all.
pub fn behind_name(all: Vec<String>) -> Vec<String>
    ensures { result.items ≡ drop 1 all.items }
{
    let mut words = all;
    if !words.is_empty() {
        words.remove(0);
    }
    words
}

/// Runs the program, and leaves its status as the exit code. Words of which one is not UTF-8 name no command, as no
/// words do; where memory is wanting for them nothing is read and nothing is printed.
pub fn tool_exit<S: Source, K: Sink>(
    alloc: Global,
    words: Result<Vec<String>, WordsFault>,
    source: &mut S,
    sink: &mut K,
) -> ExitCode
    ensures ends { IfOk words (λ all. (status : Status) × (exit_status result ≡ code_of status) × Ends (ReadRun S.reads source.old source.new) (WriteRun K.writes sink.old sink.new) (map string_bytes all.items) status
        (record { left = S.left source.old; read_faults = S.faults source.old; put = K.put sink.old; write_faults = K.faults sink.old })
        (record { left = S.left source.new; read_faults = S.faults source.new; put = K.put sink.new; write_faults = K.faults sink.new })) }
    ensures not_text { words ≡ Err WordsFault.NotText → (status : Status) × (exit_status result ≡ code_of status) × Ends (ReadRun S.reads source.old source.new) (WriteRun K.writes sink.old sink.new) [] status
        (record { left = S.left source.old; read_faults = S.faults source.old; put = K.put sink.old; write_faults = K.faults sink.old })
        (record { left = S.left source.new; read_faults = S.faults source.new; put = K.put sink.new; write_faults = K.faults sink.new }) }
    ensures usage { words ≡ Err WordsFault.NotText → (Rose (K.faults sink.old) (K.faults sink.new) → ⊥) → exit_status result ≡ code_of Usage }
    ensures memory { words ≡ Err WordsFault.Memory → (exit_status result ≡ code_of NoMemory) × (source.new ≡ source.old) × (sink.new ≡ sink.old) }
{
    match words {
        Ok(words) => ExitCode::from(tool_main(alloc, &words, source, sink)),
        Err(WordsFault::NotText) => ExitCode::from(tool_main(alloc, &[], source, sink)),
        Err(WordsFault::Memory) => ExitCode::from(Status::NoMemory.code()),
    }
}
