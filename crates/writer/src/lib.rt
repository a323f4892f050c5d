// The writer of sheets. The lines of the sheet that words hold are tested from the first, as the reader would test them, and then put
// into a lent buffer, if they fit there. The words may be any that a caller lends. The crate rests on `line` and `field`, which put a
// line of numbers, on `causes` for what fields may hold, on `words` and on `scope`.
#![tactic(auto)]

mod entries;
mod faults;
mod lines;
pub mod write;
