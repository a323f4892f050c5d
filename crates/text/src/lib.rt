// The reader of typed texts. `read` fills lent words with the sheet that a text stands for, or tells the first cause to turn it down; its
// promise, for every input, is what the scope's `TextRead` says of the bytes. The crate rests on `scope`, on `words` for the sheet, on
// `scanner` for the bytes, words and numbers of a text, and on `formula` for its formulas.
#![tactic(auto)]

mod head;
mod lines;
mod rule;
mod whole;
mod wish;

pub use whole::{MOST_TEXT, read};
