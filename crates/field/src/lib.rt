// A field: a number right-justified with spaces in five columns. It is read column by column up to the first byte that fits
// nothing, and printed from its last digit to its first. Each direction promises what the scope says: what is read is what
// `field_of` gives, or the column where it stops being the beginning of any; what is printed is what `field` has. The crate rests on
// `words` for the literals that numbers may be, and for bytes.
#![tactic(auto)]

ghost use Rattle.std.specs.Prelude.{true, ◌≡◌, ◌%◌, length};
ghost use Rattle.scope.specs.Sheet.{field_size, digit, field, fits};
ghost use Rattle.field.specs.Columns.{with_digit, next, number_from, FieldRead};
ghost use Rattle.field.specs.Fields as fields;
ghost use Rattle.field.specs.Fields.{sign_of};

use words::byte::{SPACE, ZERO};
use words::literal::Literal;

pub const FIELD_SIZE: usize = 5;

const MINUS: u8 = b'-';

// A number below this has room for one more digit.
const ROOM: u32 = 10000;

// A whole number by sign and size. No order is derived: it would put -1 above 1. That it fits its field is asked where it is printed,
// since a type that says so could not be made from any word.
#[derive(Clone, Copy, PartialEq, Eq)]
pub struct Number {
    pub minus: bool,
    pub size: u32,
}

// A number that is not below 0.
impl From<u32> for Number {
    ghost use Rattle.std.specs.Prelude.{◌≡◌};
    ghost use Rattle.scope.specs.Sheet.{plus};
    ghost use Rattle.field.specs.Columns.{number_from};

    ghost from_gives = { λ n x. number_from x ≡ plus n };

    fn from(size: u32) -> Number {
        Number { minus: false, size }
    }
}

// A literal as a number: its switch is the size. They are two types, since one would call a switch a size where there are no fields.
impl From<Literal> for Number {
    ghost use Rattle.std.specs.Prelude.{◌≡◌};
    ghost use Rattle.words.specs.Entries.{literal_of};
    ghost use Rattle.field.specs.Columns.{number_from};

    ghost from_gives = { λ l x. number_from x ≡ literal_of l };

    fn from(literal: Literal) -> Number {
        Number {
            minus: literal.minus,
            size: literal.switch,
        }
    }
}

impl From<Number> for Literal {
    ghost use Rattle.std.specs.Prelude.{◌≡◌};
    ghost use Rattle.words.specs.Entries.{literal_of};
    ghost use Rattle.field.specs.Columns.{number_from};

    ghost from_gives = { λ x l. literal_of l ≡ number_from x };

    fn from(x: Number) -> Literal {
        Literal {
            minus: x.minus,
            switch: x.size,
        }
    }
}

// The column where bytes stop being the beginning of any that are formed, from 1.
#[derive(Clone, Copy)]
pub struct Malformed {
    pub column: usize,
}

// ---- reading

// What the columns so far hold.
#[derive(Clone, Copy)]
enum Scan {
    // spaces only
    Blank,
    // a minus that no digit follows yet
    Minus,
    // the digits of this number so far
    Digits(Number),
}

fn with_digit(x: Number, b: u8) -> Option<Scan>
    ensures { result ≡ with_digit x b }
{
    if x.size < ROOM && b.is_ascii_digit() {
        let size = x.size * 10 + u32::from(b - ZERO);
        return Some(Scan::Digits(Number { size, ..x }));
    }
    None
}

fn after_spaces(b: u8, left: usize) -> Option<Scan>
    ensures { result ≡ next Scan.Blank b left }
{
    let zero = Number::from(0);
    match b {
        SPACE => Some(Scan::Blank),
        MINUS => Some(Scan::Minus),
        // a zero stands alone
        ZERO => (left == 0).then_some(Scan::Digits(zero)),
        _ => with_digit(zero, b),
    }
}

// (`left` stands in the promise alone.)
fn after_minus(b: u8, left: usize) -> Option<Scan>
    ensures { result ≡ next Scan.Minus b left }
{
    match b {
        ZERO => None,
        _ => with_digit(
            Number {
                minus: true,
                size: 0,
            },
            b,
        ),
    }
}

// One more byte, with `left` columns after it; None if no number begins so. (By a match: each state has rules of its own.)
fn after(scan: Scan, b: u8, left: usize) -> Option<Scan>
    ensures { result ≡ next scan b left }
{
    match scan {
        Scan::Blank => after_spaces(b, left),
        Scan::Minus => after_minus(b, left),
        Scan::Digits(x) => with_digit(x, b),
    }
}

// The number of five columns. By hand: `parse` takes +5, 007 and -0, and tells no column.
pub fn field_at(columns: &[u8]) -> Result<Number, Malformed>
    requires { length columns.now ≡ field_size }
    ensures { FieldRead columns.now result }
{
    let mut scan = Scan::Blank;
    for (i, b) in columns.iter().enumerate() {
        let Some(next) = after(scan, *b, FIELD_SIZE - 1 - i) else {
            return Err(Malformed { column: i + 1 });
        };
        scan = next;
    }
    match scan {
        Scan::Digits(x) => Ok(x),
        // a field ends in a digit
        Scan::Blank | Scan::Minus => Err(Malformed { column: FIELD_SIZE }),
    }
}

// ---- printing

// The last digit of n.
fn last_digit(n: u32) -> u8
    ensures { result ≡ digit (n % 10) }
{
    ZERO + (n % 10) as u8
}

// What stands directly before the first digit.
fn sign(minus: bool) -> u8
    ensures { result ≡ sign_of minus }
{
    if minus { MINUS } else { SPACE }
}

// The column of a digit, where n is what stands up to it, and `right` what stands up to the next: the sign is put there if only that
// one has a digit.
fn column(n: u32, right: u32, sign: u8) -> u8
    ensures { result ≡ fields.column n right sign }
{
    if n != 0 {
        return last_digit(n);
    }
    if right != 0 {
        return sign;
    }
    SPACE
}

// A number, right-justified with spaces. By hand, column by column: with the kit's `itoa`, which was tried, writing a full sheet misses its
// bar.
#[tactic(auto, using(crate::proofs::Printed::field_columns))]
pub fn field_bytes(x: Number) -> [u8; FIELD_SIZE]
    requires { fits (number_from x) ≡ true }
    ensures { result ≡ field (number_from x) }
{
    let s = sign(x.minus);
    let n0 = x.size;
    let n1 = n0 / 10;
    let n2 = n1 / 10;
    let n3 = n2 / 10;
    let n4 = n3 / 10;
    let c4 = column(n4, n3, s);
    let c3 = column(n3, n2, s);
    let c2 = column(n2, n1, s);
    let c1 = column(n1, 1, s);
    let c0 = last_digit(n0);
    [c4, c3, c2, c1, c0]
}
