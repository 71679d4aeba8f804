//! A report.

ghost use Rattle.std.specs.Prelude.{◌≡◌, ◌++◌, OnOk, OnErr, List, ℕ};
ghost use Rattle.event_text.specs.Report.{IsReport};

use crate::answer::{EventAnswer, put_answers};
use crate::book::put_book_lines;
use crate::log::put_log_lines;
use crate::stream::put_stream_lines;
use crate::text::hand_over;
use crate::way::Way;
use host_hub::{Book, End};
use tmc_base::Memory;
use tmc_law::Log;

/// Appends a report: what each event answered, of which `None` was not enabled; the text of the hub's book; the
/// instrument's log; the bytes that were sent up; and those that were taken down. Where memory is wanting `out` is as
/// before.
pub fn put_report(
    answers: &[Option<EventAnswer>],
    end: Option<End>,
    book: &Book,
    log: &Log,
    up: &[u8],
    down: &[u8],
    out: &mut Vec<u8>,
) -> Result<(), Memory>
    ensures put { OnOk result ((text : List ℕ) × IsReport answers.now end book.now log.now.entries up.now down.now text × (out.new.items ≡ out.old.items ++ text)) }
    ensures kept { OnErr result (out.new.items ≡ out.old.items) }
{
    let mut text = Vec::new(*out.allocator());
    put_answers(answers, &mut text)?;
    put_book_lines(end, book, &mut text)?;
    put_log_lines(log.entries(), &mut text)?;
    put_stream_lines(Way::Up, up, &mut text)?;
    put_stream_lines(Way::Down, down, &mut text)?;
    hand_over(text, out)
}
