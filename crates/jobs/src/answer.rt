// Answer and Short run.
ghost use Rattle.std.specs.Prelude.{◌≡◌, ◌≤◌, ◌<◌, length, IfSome};
ghost use Rattle.scope.specs.Causes.{accepted};
ghost use Rattle.scope.specs.Jobs.{answer_of, short_of, first_high};
ghost use Rattle.jobs.specs.Figures.{result_of, answer_from};
ghost use Rattle.jobs.specs.Steps.{high_of};

use crate::outcome::Outcome;
use circuit::rule::power;
use search::best::best_plan;
use search::run::{NoRoom, Run, run_rounds};
use words::refusal::{Cause, Refusal};
use words::sheet::Sheet;

// What a full run comes to.
impl From<Run> for Outcome {
    ghost use Rattle.std.specs.Prelude.{◌≡◌};
    ghost use Rattle.jobs.specs.Figures.{result_of};
    ghost use Rattle.jobs.specs.Steps.{run_figures};

    ghost from_gives = { λ run o. (result_of o ≡ run_figures run) × (o.length ≡ run.length) };

    fn from(run: Run) -> Outcome {
        match run.best {
            Ok(best) => Outcome::best(best, run.length),
            Err(NoRoom) => Outcome::refused(Cause::at(Refusal::NoRoom, 0), run.length),
        }
    }
}

// Answer, the full run: the list goes into `list`, and words after it keep their content.
pub fn answer(sheet: &Sheet, list: &mut [u32]) -> Outcome
    ensures answer { answer_from result list.new ≡ answer_of (accepted sheet.now) list.old }
    ensures within { result.length ≤ length list.old }
{
    Outcome::from(run_rounds(sheet, list))
}

// The place, from 0, of the first word that is not below the bound.
fn first_high(list: &[u32], bound: u32) -> Option<usize>
    ensures first { high_of result ≡ first_high bound 1 list.now }
    ensures within { IfSome result (λ i. i < length list.now) }
{
    list.iter().position(|q| bound <= *q)
}

// Short run: the best plan that passes the given patterns. A pattern's position is counted from 1.
pub fn short_run(sheet: &Sheet, patterns: &[u32]) -> Outcome
    ensures { result_of result ≡ short_of (accepted sheet.now) patterns.now }
{
    if let Some(i) = first_high(patterns, power(sheet.counts().faults)) {
        return Outcome::refused(Cause::at(Refusal::HighPattern, i + 1), 0);
    }
    Outcome::best(best_plan(sheet, patterns, None), 0)
}
