// The jobs, over bytes of any form: each reads them, and hands on the sheet or the cause to turn it down.
ghost use Rattle.std.specs.Prelude.{◌≡◌, length, ltb, is_none, unwrap_or};
ghost use Rattle.scope.specs.Jobs.{IsAnswer, IsShortRun, IsRating};
ghost use Rattle.scope.specs.Demands.{IsPair};
ghost use Rattle.scope.specs.Program.{listing_result, most_output, most_sheet, IsListing, IsConverted};
ghost use Rattle.scope.specs.Filling.{IsRead};
ghost use Rattle.jobs.specs.Figures.{result_of, rating_of, answer_from};
ghost use Rattle.words.specs.Told.{told};
ghost use Rattle.planner.specs.Returned.{read_from};

use crate::form::Form;
use jobs::outcome::{Outcome, PairRuns, Rating};
use output::{put_output, put_sheet};
use words::refusal::Cause;
use words::sheet::Sheet;
use words::{Plan, WORDS, Words};

// The valid sheet that bytes stand for, read into lent words, or the first cause to turn them down.
#[inline(always)]
fn sheet_of<'a, F: Form>(s: &[u8], words: &'a mut Words) -> Result<Sheet<'a>, Cause>
    ensures { F.Reading s.now (told result) }
{
    F::read(s, words)?;
    Ok(Sheet::new(words))
}

// A function a job, each of the same few words: one with a closure for the job would leave what is said of a list or of patterns to its
// callers.

// Answer: the list goes into `list`, and words after it keep their content.
pub fn answer<F: Form>(s: &[u8], list: &mut [u32]) -> Outcome
    ensures { IsAnswer (F.Reading s.now) list.old (answer_from result list.new) }
{
    let mut words = [0; WORDS];
    jobs::told::answer(&sheet_of::<F>(s, &mut words), list)
}

// Short run: the best plan that passes the given patterns.
pub fn short_run<F: Form>(s: &[u8], patterns: &[u32]) -> Outcome
    ensures { IsShortRun (F.Reading s.now) patterns.now (result_of result) }
{
    let mut words = [0; WORDS];
    jobs::told::short_run(&sheet_of::<F>(s, &mut words), patterns)
}

// Rating: what a plan costs, and which pattern it misses first.
pub fn rate<F: Form>(s: &[u8], plan: Plan) -> Result<Rating, Cause>
    ensures { IsRating (F.Reading s.now) plan.0 (rating_of result) }
{
    let mut words = [0; WORDS];
    jobs::told::rate(&sheet_of::<F>(s, &mut words), plan)
}

// Demand 3: Answer, then Short run over what it listed, and over the first `j` words of that.
pub fn run_pair<F: Form>(s: &[u8], list: &mut [u32], j: usize) -> PairRuns
    ensures { IsPair (F.Reading s.now) list.old j (answer_from result.full list.new) (result_of result.short) (result_of result.front) }
{
    let mut words = [0; WORDS];
    jobs::told::run_pair(&sheet_of::<F>(s, &mut words), list, j)
}

// What the program prints, put at the beginning of `out`; its length is returned. A buffer that is shorter than the longest
// listing is left as it was, and there is none.
pub fn print_listing<F: Form>(s: &[u8], out: &mut [u8]) -> Option<usize>
    ensures listing { IsListing (F.Reading s.now) out.old (listing_result (unwrap_or result 0) out.new) }
    ensures short { is_none result ≡ ltb (length out.old) most_output }
{
    let mut words = [0; WORDS];
    put_output(&sheet_of::<F>(s, &mut words), out)
}

// The sheet put at the beginning of `out`, or the lines that tell its refusal; the length is returned. A buffer that is shorter
// than the longest sheet is left as it was, and there is none.
pub fn print_sheet<F: Form>(s: &[u8], out: &mut [u8]) -> Option<usize>
    ensures sheet { IsConverted (F.Reading s.now) out.old (listing_result (unwrap_or result 0) out.new) }
    ensures short { is_none result ≡ ltb (length out.old) most_sheet }
{
    let mut words = [0; WORDS];
    put_sheet(&sheet_of::<F>(s, &mut words), out)
}

// Its tables put into lent ones; after a refusal these are as they were.
pub fn read<F: Form>(s: &[u8], tables: &mut Words) -> Result<(), Cause>
    ensures { IsRead (F.Reading s.now) tables.old (read_from result tables.new) }
{
    let mut filled = [0; WORDS];
    F::read(s, &mut filled)?;
    *tables = filled;
    Ok(())
}
