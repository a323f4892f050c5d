// The reader of planning sheets. `read` fills lent words with the sheet, or tells the first cause to turn it down; its promise, for every
// input, is that this is what the scope's SheetRead says of the bytes. The crate rests on `causes`, `line`, `field`, `words` and `scope`.
#![tactic(auto)]

mod reader;

pub use reader::read;
