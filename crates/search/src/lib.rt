// The search: the best plan over a list of patterns, one round of the list rule, and the full run
// into a lent list. It rests on `circuit` for what a plan passes and breaks, and on `words` for the
// sheet; its promises are equations with the list rule of the crate `scope`.
#![tactic(auto)]

pub mod best;
pub mod run;
