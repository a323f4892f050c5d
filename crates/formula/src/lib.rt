// The reader of formulas as they are typed. `level::or_level` reads a formula and puts the gate of each of its operators onto the lent
// sheet. What each step promises is how the scope's walk over the text (module Parsing) goes on at its place. The crate rests on
// `scanner` for the text's bytes, words and numbers, and on `words` for the sheet.
#![tactic(auto)]

pub mod level;
pub mod parsed;
pub mod points;
pub mod sign;
