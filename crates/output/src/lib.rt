// What the programs print, over what any reader told: the listing of Answer's outcome, or the sheet that a text stands for. It rests on
// `jobs` for the outcome, on `listing` and `writer` for its bytes, on `circuit` for a plan with its sheet, on `words` and on `scope`.
#![tactic(auto)]

ghost use Rattle.std.specs.Prelude.{◌≡◌, ◌*◌, ◌≤◌, length, ltb, Err, is_none, unwrap_or};
ghost use Rattle.scope.specs.Causes.{accepted};
ghost use Rattle.scope.specs.Source.{Source};
ghost use Rattle.scope.specs.Program.{output_rows, most_output, most_sheet, listing_result, listing_of, converted_of};
ghost use Rattle.words.specs.Told.{told};
ghost use Rattle.jobs.specs.Figures.{result_of};
ghost use Rattle.listing.specs.Rows.{row_size, Wrote};
ghost use Rattle.output.specs.Steps.{Printable, Heads};

use circuit::planned::Planned;
use jobs::answer::answer;
use jobs::outcome::Outcome;
use listing::head::Head;
use listing::whole::{ROOM, put_listing};
use words::refusal::{Cause, Refusal};
use words::sheet::Sheet;
use writer::write::write;

// The bytes of the longest output: of a listing, and of a sheet.
pub use listing::whole::MOST_LISTING;
pub use writer::write::MOST_SHEET;

// The A line of an outcome: its number, its place, and the column of a malformed line or else the cost. No `From`, which could not ask
// that these fit their fields.
fn head(outcome: Outcome) -> Head
    requires { Printable (result_of outcome) }
    ensures { Heads (result_of outcome) result }
{
    match outcome.answer {
        Ok(found) => Head {
            number: 0,
            place: 0,
            figure: found.cost,
        },
        Err(cause) => {
            let malformed = cause.refusal == Refusal::Malformed;
            Head {
                number: u32::from(cause.refusal),
                place: cause.place as u32,
                figure: if malformed { cause.column as u32 } else { 0 },
            }
        }
    }
}

// What is told has to be a source, or a figure would not fit its field. Each function asks for it: a struct of a reading and this fact
// would lose the fact at the match, where the sheet or the cause is handed on alone.

// Puts the listing of Answer's outcome at the beginning of `out`, and returns its length. (Two arms, each a case of the promise: by `map`
// the proof would speak of candidates, of a crate that is not rested on.)
#[inline(never)]
fn put_answer(sheet: &Sheet, out: &mut [u8]) -> usize
    requires source { Source (accepted sheet.now) }
    requires room { most_output ≤ length out.old }
    ensures { Wrote out.old (output_rows (accepted sheet.now)) out.new result }
{
    let mut list = [0u32; ROOM];
    let outcome = answer(sheet, &mut list);
    let listed = &list[..outcome.length];
    match outcome.answer {
        Ok(best) => {
            let found = Planned {
                sheet,
                plan: best.plan,
            };
            put_listing(out, head(outcome), Some(found), listed)
        }
        Err(_) => put_listing(out, head(outcome), None, listed),
    }
}

// Puts the listing of a refusal at the beginning of `out`, and returns its length.
fn put_refusal(cause: Cause, out: &mut [u8]) -> usize
    requires source { Source (told (Err cause)) }
    requires room { row_size * 2 ≤ length out.old }
    ensures { Wrote out.old (output_rows (told (Err cause))) out.new result }
{
    put_listing(out, head(Outcome::refused(cause, 0)), None, &[])
}

// Puts what the program prints at the beginning of `out`, and returns its length. A buffer that is shorter than the longest
// listing is left as it was, and there is none.
#[inline(always)]
pub fn put_output(read: &Result<Sheet, Cause>, out: &mut [u8]) -> Option<usize>
    requires { Source (told read.now) }
    ensures listing { listing_result (unwrap_or result 0) out.new ≡ listing_of (told read.now) out.old }
    ensures short { is_none result ≡ ltb (length out.old) most_output }
{
    if out.len() < MOST_LISTING {
        return None;
    }
    let end = match read {
        Ok(sheet) => put_answer(sheet, out),
        Err(cause) => put_refusal(*cause, out),
    };
    Some(end)
}

// Puts the sheet, or the listing of a refusal, at the beginning of `out`, and returns its length. A buffer that is shorter than the
// longest sheet is left as it was, and there is none.
#[inline(always)]
pub fn put_sheet(read: &Result<Sheet, Cause>, out: &mut [u8]) -> Option<usize>
    requires { Source (told read.now) }
    ensures sheet { listing_result (unwrap_or result 0) out.new ≡ converted_of (told read.now) out.old }
    ensures short { is_none result ≡ ltb (length out.old) most_sheet }
{
    if out.len() < MOST_SHEET {
        return None;
    }
    match read {
        Ok(sheet) => write(sheet.words(), out).ok(),
        Err(cause) => Some(put_refusal(*cause, out)),
    }
}
