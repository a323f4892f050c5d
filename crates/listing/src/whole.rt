// A whole listing.
ghost use Rattle.std.specs.Prelude.{◌+◌, ◌*◌, ◌≤◌, length};
ghost use Rattle.scope.specs.Sheet.{most_switches, most_wishes};
ghost use Rattle.scope.specs.Program.{room};
ghost use Rattle.listing.specs.Rows.{row_size, Wrote, Small};
ghost use Rattle.listing.specs.Listing.{plan_rows_of, plan_count, listing_rows, row_count};

use crate::head::Head;
use crate::row::{Letter, ROW_SIZE, put_row};
use crate::rows::{put_patterns, put_switches, put_wishes};
use circuit::planned::Planned;
use words::limit::{MOST_SWITCHES, MOST_WISHES};

// The longest list that is printed.
pub const ROOM: usize = 4096;

// The bytes of the longest listing: a row each for A, the switches, the wishes, the patterns and Z.
pub const MOST_LISTING: usize = (MOST_SWITCHES as usize + MOST_WISHES as usize + ROOM + 2)
    * ROW_SIZE;

// A row for each switch and each wish, if a plan was found.
fn put_plan(out: &mut [u8], found: Option<Planned>) -> usize
    requires { row_size * plan_count found ≤ length out.old }
    ensures rows { Wrote out.old (plan_rows_of found.entry) out.new result }
    ensures few { plan_count found.entry ≤ most_switches + most_wishes }
{
    let Some(found) = found else {
        return 0;
    };
    let middle = put_switches(out, found);
    middle + put_wishes(&mut out[middle..], found)
}

// The listing, at the beginning of `out`. Returns its length, as C gets a buffer and a length apart.
pub fn put_listing(out: &mut [u8], head: Head, found: Option<Planned>, list: &[u32]) -> usize
    requires few { length list.now ≤ room }
    requires small { Small list.now }
    requires room { row_size * row_count found list.now ≤ length out.old }
    ensures { Wrote out.old (listing_rows head found.entry list.now) out.new result }
{
    let first = put_row(out, Letter::Answer, [head.number, head.place, head.figure]);
    let middle = first + put_plan(&mut out[first..], found);
    let end = middle + put_patterns(&mut out[middle..], list);
    let lines = (end / ROW_SIZE) as u32;
    end + put_row(&mut out[end..], Letter::End, [lines, 0, 0])
}
