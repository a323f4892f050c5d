// A line, read from bytes and put into a buffer, side by side. Each direction promises what the scope says: what is read is what `line_of`
// gives, or the column where the line stops being the beginning of any; what is put is what `line_bytes` prints. The crate rests on
// `field` for its numbers, and on `words` for bytes.
#![tactic(auto)]

mod letter;
mod line;
mod put;
mod read;

pub use letter::Letter;
pub use line::{Line, WEIGHTED_FIELDS, WEIGHTED_SIZE, line_size};
pub use put::put_line;
pub use read::line_at;
