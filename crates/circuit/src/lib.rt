// What a plan means on a planning sheet: the truth of its points under a fault pattern, the first
// pattern that the plan does not pass, and the wishes that it breaks.
//
// The sheet is a valid one (`words::sheet::Sheet`), and goes with the plan that is asked about (`planned::Planned`). Every promise is an
// equation with a definition of the crate `scope` over both.
#![tactic(auto)]

pub mod planned;
pub mod point;
pub mod rule;
pub mod switches;
pub mod wish;
