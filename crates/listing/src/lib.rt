// The printed listing: rows of a letter and three numbers, put into a lent buffer. Each part is put at the beginning of what it is lent,
// and says where it ends. The crate rests on `line` and `field`, which put a line of numbers, on `circuit` for the switches that are on
// and the wishes that are kept, and on `words` for the sheet. Every promise is an equation with the rows that the crate `scope` defines.
#![tactic(auto)]

pub mod head;
mod row;
mod rows;
pub mod whole;
