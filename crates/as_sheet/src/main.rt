// The third program: turns the typed text on standard input into its fixed-column sheet and prints that, or the lines that
// tell its refusal. That `print_sheet` gives this for the bytes that it is handed, byte for byte, is proved; that standard
// input is read and standard output written is tested. An input that was not read to its end has no answer.
#![tactic(auto)]

ghost use Rattle.std.specs.Prelude.{◌≤◌, length};
ghost use Rattle.scope.specs.Texts.{TextRead};
ghost use Rattle.scope.specs.Program.{most_sheet, listing_result, IsConverted};

use planner::{MOST_SHEET, MOST_TEXT, Typed, print_sheet};

// One byte more than a text may have, so that a longer one is told.
const INPUT: usize = MOST_TEXT + 1;

// The buffer has room for the longest sheet, so that there always is one. The programs are this line each, of the form and the output
// that they name: no plainer as one function with a name for either.
fn print(text: &[u8], out: &mut [u8]) -> usize
    requires { most_sheet ≤ length out.old }
    ensures { IsConverted (TextRead text.now) out.old (listing_result result out.new) }
{
    print_sheet::<Typed>(text, out).unwrap()
}

fn main(rt: HostRuntime) {
    stream::run(&rt, &mut [0; INPUT], &mut [0; MOST_SHEET], print);
}
