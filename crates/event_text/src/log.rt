//! The lines of an instrument's log.

ghost use Rattle.std.specs.Prelude.{◌≡◌, ◌++◌, OnOk, OnErr, codes};
ghost use Rattle.std.specs.Fmt.{decimal};
ghost use Rattle.event_text.specs.Report.{act_word, exec_line, log_line, numbered};

use crate::text::{Part, hand_over, put_parts};
use instr_plain::{LogEntry, RemoteAct};
use tmc_base::Memory;
use tmc_law::Log;

/// Appends a line an entry, numbered from 1. Where memory is wanting `out` is as before.
pub fn put_log(log: &Log, out: &mut Vec<u8>) -> Result<(), Memory>
    ensures put { OnOk result (out.new.items ≡ out.old.items ++ numbered log_line 1 log.now.entries) }
    ensures kept { OnErr result (out.new.items ≡ out.old.items) }
{
    let mut text = Vec::new(*out.allocator());
    put_log_lines(log.entries(), &mut text)?;
    hand_over(text, out)
}

pub(crate) fn put_log_lines(entries: &[LogEntry], text: &mut Vec<u8>) -> Result<(), Memory>
    ensures { OnOk result (text.new.items ≡ text.old.items ++ numbered log_line 1 entries.now) }
{
    let mut number = 1;
    'entries: for entry in entries {
        put_entry(number, entry, text)?;
        number += 1;
    }
    Ok(())
}

fn put_entry(number: u64, entry: &LogEntry, text: &mut Vec<u8>) -> Result<(), Memory>
    ensures { OnOk result (text.new.items ≡ text.old.items ++ log_line number entry.now) }
{
    match entry {
        LogEntry::Exec { seq, message } => put_exec(number, *seq, message.as_slice(), text),
        LogEntry::Took { n } => put_counted(number, " took ", *n, text),
        LogEntry::Interrupt => put_plain(number, " interrupt\n", text),
        LogEntry::Bare => put_plain(number, " bare\n", text),
        LogEntry::Trigger { seq } => put_counted(number, " trigger ", *seq, text),
        LogEntry::Poll { seq } => put_counted(number, " poll ", *seq, text),
        LogEntry::Clear => put_plain(number, " clear\n", text),
        LogEntry::Remote { act } => put_act(number, *act, text),
    }
}

fn put_exec(number: u64, seq: u32, message: &[u8], text: &mut Vec<u8>) -> Result<(), Memory>
    ensures { OnOk result (text.new.items ≡ text.old.items ++ exec_line number seq message.now) }
{
    put_parts(
        &[
            Part::Word("log "),
            Part::Number(number),
            Part::Word(" exec "),
            Part::Number(u64::from(seq)),
            Part::Word(" "),
            Part::Hex(message),
            Part::Word("\n"),
        ],
        text,
    )
}

/// A line of which a number is the last word.
fn put_counted(number: u64, name: &str, count: u32, text: &mut Vec<u8>) -> Result<(), Memory>
    ensures { OnOk result (text.new.items ≡ text.old.items ++ (codes "log " ++ (decimal number ++ (name.now ++ (decimal count ++ codes "\n"))))) }
{
    put_parts(
        &[
            Part::Word("log "),
            Part::Number(number),
            Part::Word(name),
            Part::Number(u64::from(count)),
            Part::Word("\n"),
        ],
        text,
    )
}

/// A line that has nothing behind its name.
fn put_plain(number: u64, name: &str, text: &mut Vec<u8>) -> Result<(), Memory>
    ensures { OnOk result (text.new.items ≡ text.old.items ++ (codes "log " ++ (decimal number ++ name.now))) }
{
    put_parts(
        &[Part::Word("log "), Part::Number(number), Part::Word(name)],
        text,
    )
}

fn put_act(number: u64, act: RemoteAct, text: &mut Vec<u8>) -> Result<(), Memory>
    ensures { OnOk result (text.new.items ≡ text.old.items ++ (codes "log " ++ (decimal number ++ (codes " remote " ++ (act_word act ++ codes "\n"))))) }
{
    put_parts(
        &[
            Part::Word("log "),
            Part::Number(number),
            Part::Word(" remote "),
            Part::Word(act_word(act)),
            Part::Word("\n"),
        ],
        text,
    )
}

pub(crate) fn act_word(act: RemoteAct) -> &'static str
    ensures { result.now ≡ act_word act }
{
    match act {
        RemoteAct::On => "on",
        RemoteAct::Off => "off",
        RemoteAct::GoLocal => "local",
        RemoteAct::Lockout => "lockout",
    }
}
