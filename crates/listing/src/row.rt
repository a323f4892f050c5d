// A row: a letter and three numbers, none of them below 0.
ghost use Rattle.std.specs.Prelude.{[], ◌∷◌, ◌≤◌, length};
ghost use Rattle.listing.specs.Rows.{row_size, byte_of, row_of, Small, Wrote};

use field::{FIELD_SIZE, Number};
use line::put_line;

// Whatever a sheet's lines have.
const ROW_FIELDS: usize = 3;

// The bytes of a row: its letter, its numbers and a line feed. A constant's value calls no function, such as `line_size`.
pub const ROW_SIZE: usize = 1 + ROW_FIELDS * FIELD_SIZE + 1;

// What a row is of. (An enum of its own: those of a sheet's lines, `line::Letter`, have others, and A is an and there. One enum of all
// would have letters that no sheet has, and some that no listing has.)
#[derive(Clone, Copy)]
pub enum Letter {
    Answer = b'A' as isize,
    Switch = b'S' as isize,
    Wish = b'W' as isize,
    Pattern = b'F' as isize,
    End = b'Z' as isize,
}

impl From<Letter> for u8 {
    ghost use Rattle.std.specs.Prelude.{◌≡◌};
    ghost use Rattle.listing.specs.Rows.{byte_of};

    ghost from_gives = { λ l b. b ≡ byte_of l };

    fn from(letter: Letter) -> u8 {
        letter as u8
    }
}

// Puts a row at the beginning of what is lent: by `put_line`, and no `Display`, as there is no heap.
pub fn put_row(out: &mut [u8], letter: Letter, numbers: [u32; ROW_FIELDS]) -> usize
    requires room { row_size ≤ length out.old }
    requires small { Small numbers }
    ensures { Wrote out.old (row_of (byte_of letter) numbers ∷ []) out.new result }
{
    put_line(
        &mut out[..ROW_SIZE],
        u8::from(letter),
        &numbers.map(Number::from),
    );
    ROW_SIZE
}
