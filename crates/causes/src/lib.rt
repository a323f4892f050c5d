// The causes to turn a line down: what may stand in its fields, and the tests of the scope for each kind of line, in their order.
// `Place::fault` promises the refusal of the first test that a line does not meet, from the counts of what the lines before say, and
// `Place::line_fault` promises it of any line that was read. The tests of fields alone are asked by `writer` too. The crate rests on
// `line`, `field`, `words` and `scope`.
#![tactic(auto)]

pub mod allowed;
mod place;

pub use place::Place;
