// The jobs over bytes: Answer, Short run and Rating, for every byte string, every lent list and every number. It rests on `sheet` and
// `text` for reading, on `jobs`, and on `output` for what is printed.
//
// A form, of which there are two (`form`), is a parameter of each job, as in `planner::answer::<Typed>(bytes, list)`. What is exported,
// which is what can be reached from outside this crate, is these functions: none has a `requires`. With them go the limits of what is
// read and printed, in bytes. The calls for C are in the crate `planner_c`.
#![tactic(auto)]

mod form;
mod over;

pub use form::{Fixed, Form, Typed};
pub use output::{MOST_LISTING, MOST_SHEET};
pub use over::{answer, print_listing, print_sheet, rate, read, run_pair, short_run};
pub use text::MOST_TEXT;
