// The calls for C and Rust, as a static library: of the jobs, of reading into tables and of writing them. Each hands its arguments to
// a function of `planner` or `writer` and its figures to the caller, and promises what that function does. None has a `requires`.
#![tactic(auto)]

mod calls;
