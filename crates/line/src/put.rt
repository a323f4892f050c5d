// Putting a line into a buffer.
ghost use Rattle.std.specs.Prelude.{◌∷◌, ◌++◌, ◌≡◌, ◌≤◌, ◌*◌, length, drop};
ghost use Rattle.scope.specs.Sheet.{field_size, fields_bytes};
ghost use Rattle.scope.specs.Causes.{line_size};
ghost use Rattle.scope.specs.Reading.{Fit};
ghost use Rattle.line.specs.Lines.{numbers_from, fields_front};

use field::{FIELD_SIZE, Number, field_bytes};
use words::byte::FEED;

// Puts the columns of a number, one by one: copied as a whole they pass through memory, and writing a full sheet misses its bar.
fn put_columns(out: &mut [u8], columns: [u8; FIELD_SIZE])
    requires { length out.old ≡ field_size }
    ensures { out.new ≡ columns }
{
    for i in 0..FIELD_SIZE {
        out[i] = columns[i];
    }
}

// Puts numbers one after another into their columns: by places, as nothing is known of what a loop over `chunks_exact_mut` leaves.
fn put_fields(out: &mut [u8], numbers: &[Number])
    requires fit { Fit (numbers_from numbers.now) }
    requires whole { length out.old ≡ length numbers.now * field_size }
    ensures { out.new ≡ fields_front (numbers_from numbers.now) }
{
    for (i, x) in numbers.iter().enumerate() {
        let at = i * FIELD_SIZE;
        put_columns(&mut out[at..at + FIELD_SIZE], field_bytes(*x));
    }
}

// Puts a line at the beginning of a buffer, and leaves the bytes after it; no `Display`, as the buffer is lent. The letter is a byte, and
// no `Line` is taken, since the rows of listings have letters of their own.
pub fn put_line(out: &mut [u8], letter: u8, numbers: &[Number])
    requires fit { Fit (numbers_from numbers.now) }
    requires room { line_size (length numbers.now) ≤ length out.old }
    ensures { out.new ≡ letter ∷ fields_bytes (numbers_from numbers.now) ++ drop (line_size (length numbers.now)) out.old }
{
    let end = 1 + numbers.len() * FIELD_SIZE;
    out[0] = letter;
    put_fields(&mut out[1..end], numbers);
    out[end] = FEED;
}
