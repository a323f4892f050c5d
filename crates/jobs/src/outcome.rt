// What the jobs return.
ghost use Rattle.std.specs.Prelude.{ℕ, ◌≡◌, List};
ghost use Rattle.scope.specs.Causes.{refused};
ghost use Rattle.scope.specs.Jobs.{refusal};
ghost use Rattle.scope.specs.Demands.{Runs};
ghost use Rattle.words.specs.Refusals.{number_of};
ghost use Rattle.jobs.specs.Figures.{result_of, answer_from};
ghost use Rattle.jobs.specs.Steps.{best_figures};

use search::best::Candidate;
use words::Pattern;
use words::refusal::{Cause, Refusal};

// What Answer and Short run return: the best plan, or why there is none, and where; and the length of the list, which C has lent and
// gets apart.
#[derive(Clone, Copy)]
pub struct Outcome {
    pub answer: Result<Candidate, Cause>,
    pub length: usize,
}

// The length goes with what each is made of, so there is no `From`.
impl Outcome {
    pub fn refused(cause: Cause, length: usize) -> Outcome
        ensures { result_of result ≡ refusal (number_of cause.refusal) cause.place cause.column length }
    {
        Outcome {
            answer: Err(cause),
            length,
        }
    }

    // The best plan, or that there is none.
    pub fn best(best: Option<Candidate>, length: usize) -> Outcome
        ensures { result_of result ≡ best_figures best length }
    {
        Outcome {
            answer: best.ok_or(Cause::at(Refusal::NoPlan, 0)),
            length,
        }
    }
}

// What Rating returns: the plan's cost, and the smallest pattern that it does not pass. It is sound if there is none.
#[derive(Clone, Copy)]
pub struct Rating {
    pub cost: u32,
    pub missed: Option<Pattern>,
}

// What the three calls of demand 3 return: Answer, Short run over what it listed, and Short run over the first of that.
#[derive(Clone, Copy)]
pub struct PairRuns {
    pub full: Outcome,
    pub short: Outcome,
    pub front: Outcome,
}

impl PairRuns {
    // Where nothing is accepted, all three tell the cause, and the list is as it was.
    pub fn refused(cause: Cause) -> PairRuns
        ensures { (lent : List ℕ) (j : ℕ) → Runs (refused (number_of cause.refusal) cause.place cause.column) lent j (answer_from result.full lent) (result_of result.short) (result_of result.front) }
    {
        let outcome = Outcome::refused(cause, 0);
        PairRuns {
            full: outcome,
            short: outcome,
            front: outcome,
        }
    }
}
