// A sheet written from the words that hold it: its lines are tested from the first, then the room, and only then is anything put into
// the buffer.
ghost use Rattle.std.specs.Prelude.{◌≡◌, length};
ghost use Rattle.scope.specs.Sheet.{sheet_bytes, Valid};
ghost use Rattle.scope.specs.Words.{held};
ghost use Rattle.scope.specs.Writing.{IsWritten};
ghost use Rattle.line.specs.Lines.{layout_of};
ghost use Rattle.writer.specs.Tested.{Caused};
ghost use Rattle.writer.specs.Returned.{written_from};

use crate::entries::line_count;
use crate::faults::fault_at;
use crate::lines::Lines;
use line::{WEIGHTED_FIELDS, WEIGHTED_SIZE, line_size, put_line};
use words::Words;
use words::limit::MOST_LINES;
use words::refusal::{Cause, Refusal};

// The bytes of the longest sheet.
pub const MOST_SHEET: usize = MOST_LINES * WEIGHTED_SIZE;

// The first cause to turn the held sheet down: its lines are tested from the first.
fn first_cause(words: &Words) -> Result<(), Cause>
    ensures { Caused words.now result }
{
    for k in 0..line_count(words) {
        fault_at(words, k).map_err(|refusal| Cause::at(refusal, k + 1))?;
    }
    Ok(())
}

// Puts the lines, each of N fields, one after another: by places, as `put_fields` of `line`.
fn put_lines<const N: usize>(lines: Lines<N>, out: &mut [u8])
    requires valid { Valid (held lines.words.now) }
    requires whole { length out.old ≡ length (sheet_bytes (layout_of N) (held lines.words.now)) }
    ensures { out.new ≡ sheet_bytes (layout_of N) (held lines.entry.words.now) }
{
    let size = line_size(N);
    for k in 0..line_count(lines.words) + 1 {
        let line = lines.at(k);
        let at = k * size;
        put_line(
            &mut out[at..at + size],
            u8::from(line.letter),
            &line.numbers,
        );
    }
}

// The sheet that the words hold put at the beginning of `out`, and its length, or the first cause to turn it down, which leaves the
// buffer as it was. Words beyond the counts are not looked at.
pub fn write(words: &Words, out: &mut [u8]) -> Result<usize, Cause>
    ensures { IsWritten words.now out.old (written_from result out.new) }
{
    first_cause(words)?;
    let need = (line_count(words) + 1) * WEIGHTED_SIZE;
    if out.len() < need {
        return Err(Cause::at(Refusal::TooShort, 0));
    }
    put_lines(Lines::<WEIGHTED_FIELDS> { words }, &mut out[..need]);
    Ok(need)
}
