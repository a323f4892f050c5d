// The jobs over what a reader told: the valid sheet, or the cause to turn its source down. For a cause nothing is run, and a lent list
// is as it was. They are inlined: behind a call, the words that a caller lends its reader are blanked once more.
ghost use Rattle.std.specs.Prelude.{◌≡◌};
ghost use Rattle.scope.specs.Jobs as jobs;
ghost use Rattle.scope.specs.Jobs.{answer_of, short_of};
ghost use Rattle.scope.specs.Demands.{Runs};
ghost use Rattle.words.specs.Told.{told};
ghost use Rattle.jobs.specs.Figures.{result_of, rating_of, answer_from};

use crate::outcome::{Outcome, PairRuns, Rating};
use words::Plan;
use words::refusal::Cause;
use words::sheet::Sheet;

#[inline(always)]
pub fn answer(read: &Result<Sheet, Cause>, list: &mut [u32]) -> Outcome
    ensures { answer_from result list.new ≡ answer_of (told read.now) list.old }
{
    match read {
        Ok(sheet) => crate::answer::answer(sheet, list),
        Err(cause) => Outcome::refused(*cause, 0),
    }
}

#[inline(always)]
pub fn short_run(read: &Result<Sheet, Cause>, patterns: &[u32]) -> Outcome
    ensures { result_of result ≡ short_of (told read.now) patterns.now }
{
    match read {
        Ok(sheet) => crate::answer::short_run(sheet, patterns),
        Err(cause) => Outcome::refused(*cause, 0),
    }
}

#[inline(always)]
pub fn rate(read: &Result<Sheet, Cause>, plan: Plan) -> Result<Rating, Cause>
    ensures { rating_of result ≡ jobs.rating_of (told read.now) plan.0 }
{
    match read {
        Ok(sheet) => crate::rating::rate(sheet, plan),
        Err(cause) => Err(*cause),
    }
}

#[inline(always)]
pub fn run_pair(read: &Result<Sheet, Cause>, list: &mut [u32], j: usize) -> PairRuns
    ensures { Runs (told read.now) list.old j (answer_from result.full list.new) (result_of result.short) (result_of result.front) }
{
    match read {
        Ok(sheet) => crate::pair::run_pair(sheet, list, j),
        Err(cause) => PairRuns::refused(*cause),
    }
}
