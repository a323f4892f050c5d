// A typed text's bytes, and its words and numbers. `reader` holds the lent text and a position; `token` reads what stands at a place. What
// each step promises is how the scope's walk over the text (module Parsing) goes on there. It rests on `words` for bytes, and on
// `scope`.
#![tactic(auto)]

pub mod reader;
pub mod token;
