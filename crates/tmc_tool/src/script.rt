//! The bytes of a script, as `show` and `replay` read them.

ghost use Rattle.std.specs.Prelude.{◌≡◌, ◌⊎◌, ◌∷◌, ◌++◌, [], length, true, false, List, ℕ, IfOk, Err};
ghost use Rattle.std.specs.List.{AllByRecursion};
ghost use Rattle.tmc_base.specs.declared.reading.ReadFault.TheVariants.{Failed};
ghost use Rattle.tmc_base.specs.Faults.{Rose};
ghost use Rattle.tmc_base.specs.Source.{GivesFirst, HasEnded};
ghost use Rattle.tmc_base.specs.Reading.{NoRead, AtEnd, AtFault, ReadRun};
ghost use Rattle.event_text.specs.Words.{IsInside};
ghost use Rattle.tmc_tool.specs.Script.{KeepsLimits, PassesLimit, IsBounded, Stands};

use event_text::{LINE_MOST, LINES_MOST, split_line};
use std::alloc::Global;
use tmc_base::{ReadFault, ReadStep, Source};

/// The most bytes that one read asks for.
const PIECE: usize = 4_096;

/// The most lines of a script, and the most bytes of a line without its NL.
const LINES: u64 = LINES_MOST as u64;

const LINE: u64 = LINE_MOST as u64;

/// Where the reading of a script stands.
#[derive(Clone, Copy, Debug, PartialEq, Eq)]
enum Place {
    /// So many lines have ended, and so many bytes of the next have come.
    Within { ended: u64, begun: u64 },
    /// More lines have begun than a script has, or one is too long.
    Past,
}

impl Place {
    /// Behind so many bytes more that end no line.
    fn inside(self, count: u64) -> Place
        ensures { (bytes line : List ℕ) → AllByRecursion IsInside line → length line ≡ count → Stands bytes self → Stands (bytes ++ line) result }
    {
        if count == 0 {
            return self;
        }
        match self {
            Place::Within { ended, begun } => {
                let begun = begun.saturating_add(count);
                if ended >= LINES || begun > LINE {
                    Place::Past
                } else {
                    Place::Within { ended, begun }
                }
            }
            Place::Past => Place::Past,
        }
    }

    /// Behind an NL.
    fn behind_nl(self) -> Place
        ensures { (bytes : List ℕ) → Stands bytes self → Stands (bytes ++ 10 ∷ []) result }
    {
        match self {
            Place::Within { ended, .. } => {
                if ended >= LINES {
                    Place::Past
                } else {
                    Place::Within {
                        ended: ended + 1,
                        begun: 0,
                    }
                }
            }
            Place::Past => Place::Past,
        }
    }

    /// Whether a limit is passed.
    fn is_past(self) -> bool
        ensures passes { (bytes : List ℕ) → Stands bytes self → result ≡ true → PassesLimit bytes }
        ensures keeps { (bytes : List ℕ) → Stands bytes self → result ≡ false → KeepsLimits bytes }
    {
        match self {
            Place::Within { .. } => false,
            Place::Past => true,
        }
    }
}

/// Behind the bytes of a piece.
fn follow(piece: &[u8], place: Place) -> Place
    ensures { (bytes : List ℕ) → Stands bytes place → Stands (bytes ++ piece.now) result }
{
    let mut at = place;
    let mut rest = piece;
    'lines: while let Some((line, more)) = split_line(rest) {
        at = at.inside(line.len() as u64).behind_nl();
        rest = more;
    }
    at.inside(rest.len() as u64)
}

/// Reads the bytes of a script until its source ends, or until a read passes a limit of a script. No read stands behind one
/// that ended or failed.
pub(crate) fn read_bytes<S: Source>(alloc: Global, source: &mut S) -> Result<Vec<u8>, ReadFault>
    ensures first { IfOk result (λ bytes. GivesFirst bytes.items (S.left source.old) (S.left source.new)) }
    ensures enough { IfOk result (λ bytes. (HasEnded (S.left source.new) × ReadRun S.reads source.old source.new AtEnd bytes.items)
        ⊎ (PassesLimit bytes.items × ReadRun S.reads source.old source.new NoRead bytes.items)) }
    ensures bounded { IfOk result (λ bytes. IsBounded bytes.items) }
    ensures ok_counts { IfOk result (λ _. S.faults source.new ≡ S.faults source.old) }
    ensures failed { result ≡ Err Failed → Rose (S.faults source.old) (S.faults source.new) }
    ensures memory { result ≡ Err ReadFault.Memory → S.faults source.new ≡ S.faults source.old }
    ensures failed_run { result ≡ Err Failed → (bytes : List ℕ) × IsBounded bytes × ReadRun S.reads source.old source.new AtFault bytes }
    ensures memory_run { result ≡ Err ReadFault.Memory → (bytes : List ℕ) × IsBounded bytes × ReadRun S.reads source.old source.new NoRead bytes }
{
    let mut bytes = Vec::new(alloc);
    let mut piece = [0u8; PIECE];
    let mut place = Place::Within { ended: 0, begun: 0 };
    'pieces: while !place.is_past() {
        match source.read(&mut piece) {
            ReadStep::Got(n) => {
                place = follow(&piece[..n], place);
                match bytes.extend_from_slice(&piece[..n]) {
                    Ok(()) => (),
                    Err(_) => return Err(ReadFault::Memory),
                }
            }
            ReadStep::End => return Ok(bytes),
            ReadStep::Failed => return Err(ReadFault::Failed),
        }
    }
    Ok(bytes)
}
