//! The program as the shell runs it: the words that it is given, and the exit code that it leaves.

ghost use Rattle.std.specs.Prelude.{◌≡◌, ◌↔◌, Err, IfOk, map, drop, [], string_bytes};
ghost use Rattle.std.specs.Process.{exit_status};
ghost use Rattle.tmc_base.specs.Faults.{Rose};
ghost use Rattle.tmc_live.specs.Served.{IsServed};
ghost use Rattle.tmc_live.specs.Live.{code_of, Ends};
ghost use Rattle.tmc_live.specs.declared.status.Status.{Status};
ghost use Rattle.tmc_live.specs.declared.status.Status.TheVariants.{Usage, NoMemory};

use crate::live::live_main;
use crate::net::Net;
use crate::status::Status;
use std::alloc::{AllocError, Global};
use std::io;
use std::process::ExitCode;
use tmc_base::{Sink, Source};

/// Why the words behind the program's name were not read.
#[derive(Clone, Copy, Debug, PartialEq, Eq)]
pub enum WordsFault {
    /// A word is not UTF-8.
    NotText,
    Memory,
}

impl From<io::Error> for WordsFault {
    ghost use Rattle.std.specs.IoError.{error_kind};
    ghost use Rattle.std.specs.declared.io.ErrorKind.TheVariants.{InvalidData};
    ghost use Rattle.tmc_live.specs.declared.shell.WordsFault.TheVariants.{NotText};

    ghost from_gives = { λ error fault. (fault ≡ NotText) ↔ (error_kind error ≡ InvalidData) };

    fn from(error: io::Error) -> WordsFault {
        match error.kind() {
            io::ErrorKind::InvalidData => WordsFault::NotText,
            _ => WordsFault::Memory,
        }
    }
}

impl From<AllocError> for WordsFault {
    ghost use Rattle.tmc_live.specs.declared.shell.WordsFault.TheVariants.{Memory};

    ghost from_gives = { λ _ fault. fault ≡ Memory };

    fn from(_error: AllocError) -> WordsFault {
        WordsFault::Memory
    }
}

/// The words behind the program's name, which is the first of all.
pub fn behind_name(all: Vec<String>) -> Vec<String>
    ensures { result.items ≡ drop 1 all.items }
{
    let mut words = all;
    if !words.is_empty() {
        words.remove(0);
    }
    words
}

/// Runs the program, and leaves its status as the exit code. Words of which one is not UTF-8 name no command, as no
/// words do; where memory is wanting for them nothing is printed and no call of the net is made.
pub fn live_exit<S: Source, K: Sink, N: Net>(
    alloc: Global,
    words: Result<Vec<String>, WordsFault>,
    source: &mut S,
    sink: &mut K,
    net: &mut N,
) -> ExitCode
    ensures ends { IfOk words (λ all. (status : Status) × (exit_status result ≡ code_of status) × Ends (record { standing = N.standing; back = N.back; opens = N.opens; accepts = N.accepts; takes = N.takes; put = K.put; faults = K.faults; writes = K.writes; serves = IsServed N.L.told N.L.counts N.L.sends N.L.polls })
        (map string_bytes all.items) status net.old sink.old net.new sink.new) }
    ensures not_text { words ≡ Err WordsFault.NotText → (status : Status) × (exit_status result ≡ code_of status) × Ends (record { standing = N.standing; back = N.back; opens = N.opens; accepts = N.accepts; takes = N.takes; put = K.put; faults = K.faults; writes = K.writes; serves = IsServed N.L.told N.L.counts N.L.sends N.L.polls })
        [] status net.old sink.old net.new sink.new }
    ensures usage { words ≡ Err WordsFault.NotText → (Rose (K.faults sink.old) (K.faults sink.new) → ⊥) → exit_status result ≡ code_of Usage }
    ensures memory { words ≡ Err WordsFault.Memory → (exit_status result ≡ code_of NoMemory) × (sink.new ≡ sink.old) × (net.new ≡ net.old) }
    ensures unread { source.new ≡ source.old }
{
    match words {
        Ok(words) => ExitCode::from(live_main(alloc, &words, source, sink, net)),
        Err(WordsFault::NotText) => ExitCode::from(live_main(alloc, &[], source, sink, net)),
        Err(WordsFault::Memory) => ExitCode::from(Status::NoMemory.code()),
    }
}
