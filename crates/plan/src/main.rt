// The program: answers the planning sheet on standard input and prints the listing. That `print_listing` gives
// the listing of the bytes that it is handed, byte for byte, is proved; that standard input is read and standard output
// written is tested. An input that was not read to its end has no answer.
#![tactic(auto)]

ghost use Rattle.std.specs.Prelude.{◌≤◌, length};
ghost use Rattle.scope.specs.Sheet.{weighted};
ghost use Rattle.scope.specs.Sheets.{SheetRead};
ghost use Rattle.scope.specs.Program.{most_output, listing_result, IsListing};

use planner::{Fixed, MOST_LISTING, MOST_SHEET, print_listing};

// One byte more than a sheet may have, so that a longer one is told.
const INPUT: usize = MOST_SHEET + 1;

// The buffer has room for the longest listing, so that there always is one. The programs are this line each, of the form and the output
// that they name: no plainer as one function with a name for either.
fn print(sheet: &[u8], out: &mut [u8]) -> usize
    requires { most_output ≤ length out.old }
    ensures { IsListing (SheetRead weighted sheet.now) out.old (listing_result result out.new) }
{
    print_listing::<Fixed>(sheet, out).unwrap()
}

fn main(rt: HostRuntime) {
    stream::run(&rt, &mut [0; INPUT], &mut [0; MOST_LISTING], print);
}
