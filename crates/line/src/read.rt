// Reading a line from its bytes.
ghost use Rattle.std.specs.Prelude.{◌≡◌, ◌+◌, ◌*◌, length};
ghost use Rattle.scope.specs.Sheet.{field_size};
ghost use Rattle.scope.specs.Causes.{line_size};
ghost use Rattle.line.specs.Lines.{FieldsRead, LineRead};

use crate::letter::Letter;
use crate::line::Line;
use field::{FIELD_SIZE, Malformed, Number, field_at};
use words::byte::FEED;

// The N fields and the line feed, up to the first byte that fits nothing. An error is told by a match, here and below: with `map_err(..)?`
// reading a full sheet misses its bar.
fn fields_at<const N: usize>(bytes: &[u8]) -> Result<[Number; N], Malformed>
    requires { length bytes.now ≡ N * field_size + 1 }
    ensures { FieldsRead N bytes.now result }
{
    let mut numbers = [Number::from(0); N];
    for (i, number) in numbers.iter_mut().enumerate() {
        let at = i * FIELD_SIZE;
        *number = match field_at(&bytes[at..at + FIELD_SIZE]) {
            Ok(x) => x,
            Err(stop) => {
                return Err(Malformed {
                    column: at + stop.column,
                });
            }
        };
    }
    let end = N * FIELD_SIZE;
    if bytes[end] != FEED {
        return Err(Malformed { column: end + 1 });
    }
    Ok(numbers)
}

// The line of N fields in its bytes.
pub fn line_at<const N: usize>(bytes: &[u8]) -> Result<Line<N>, Malformed>
    requires { length bytes.now ≡ line_size N }
    ensures { LineRead N bytes.now result }
{
    let fields = fields_at(&bytes[1..]);
    // after the fields, so that the machine code decides on the letter once
    let letter = Letter::try_from(bytes[0])?;
    match fields {
        Ok(numbers) => Ok(Line { letter, numbers }),
        Err(stop) => Err(Malformed {
            column: stop.column + 1,
        }),
    }
}
