// The jobs: Answer, Short run, Rating, and the three calls of demand 3. Each promise is an equation with the job of the crate `scope`.
// They stand over a valid sheet, and in `told` over whatever a reader told, where for a cause the same outcomes are made without a run
// (`Outcome::refused`, `PairRuns::refused`). It rests on
// `circuit` and `search` for what a plan means and which one is best, and on `words`.
#![tactic(auto)]

pub mod answer;
pub mod outcome;
pub mod pair;
pub mod rating;
pub mod told;
