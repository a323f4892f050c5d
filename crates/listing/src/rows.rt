// The rows of the listing that come in numbers: switches, wishes, patterns.
ghost use Rattle.std.specs.Prelude.{List, ℕ, ◌*◌, ◌≤◌, ◌<◌, length};
ghost use Rattle.scope.specs.Sheet.{Valid};
ghost use Rattle.scope.specs.Meaning.{bits};
ghost use Rattle.scope.specs.Program.{each, switch_row, wish_row, pattern_row, room};
ghost use Rattle.listing.specs.Rows.{row_size, byte_of, field_end, figure_rows, Small, Given, Wrote};

use crate::row::{Letter, put_row};
use circuit::planned::Planned;

// Each function asks for the room of what it puts: the part that it is lent is as long as its caller makes it.

// A row for each of n figures: its number, counted from 1, and what is given for its place, counted from 0.
fn put_rows<F: Fn(usize) -> u32>(out: &mut [u8], letter: Letter, n: usize, figure: F) -> usize
    requires few { n < field_end }
    requires room { row_size * n ≤ length out.old }
    requires given { (i : ℕ) → i < n → F.pre figure i }
    requires small { (i x : ℕ) → i < n → F.post figure i x → x < field_end }
    ensures { (xs : List ℕ) × Given (F.post figure) n xs × Wrote out.old (figure_rows (byte_of letter) xs) out.new result }
{
    let mut end = 0;
    for i in 0..n {
        let number = i as u32 + 1;
        end += put_row(&mut out[end..], letter, [number, figure(i), 0]);
    }
    end
}

// A row for each switch, on or off.
pub fn put_switches(out: &mut [u8], found: Planned) -> usize
    requires { row_size * found.sheet.now.switches ≤ length out.old }
    ensures valid { Valid found.entry.sheet.now }
    ensures rows { Wrote out.old (each switch_row 1 (bits found.entry.sheet.now.switches found.entry.plan.0)) out.new result }
{
    let n = found.sheet.counts().switches as usize;
    put_rows(out, Letter::Switch, n, |i| u32::from(found.is_on(i)))
}

// A row for each wish, kept or broken.
pub fn put_wishes(out: &mut [u8], found: Planned) -> usize
    requires { row_size * length found.sheet.now.wishes ≤ length out.old }
    ensures { Wrote out.old (each (wish_row found.entry.sheet.now found.entry.plan.0) 1 found.entry.sheet.now.wishes) out.new result }
{
    let n = found.sheet.counts().wishes as usize;
    put_rows(out, Letter::Wish, n, |i| u32::from(found.is_kept(i)))
}

// A row for each listed pattern.
pub fn put_patterns(out: &mut [u8], list: &[u32]) -> usize
    requires few { length list.now ≤ room }
    requires small { Small list.now }
    requires room { row_size * length list.now ≤ length out.old }
    ensures { Wrote out.old (each pattern_row 1 list.now) out.new result }
{
    put_rows(out, Letter::Pattern, list.len(), |i| list[i])
}
