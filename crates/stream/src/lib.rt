// What the programs share: the input read to its end, a function that prints for its bytes, and what was printed written
// whole. Where the bytes of input and output are known, it is proved what is written. Of standard input and output no
// contract can know them: that they are read and written is tested.
//
// Rests on the standard library alone.
#![tactic(auto)]

ghost use Rattle.std.specs.Prelude.{IfOk, length};
ghost use Rattle.std.specs.Io.{ReadsAtMost};
ghost use Rattle.stream.specs.Streams.{IsInput, MayPrint, StaysWithin, Transformed};

use std::fmt::{self, Display, Formatter};
use std::io::{self, Eprint, Input, Print, Read, Write};

// Why an input has no answer, or nobody got the whole of it.
#[derive(Clone, Copy)]
pub enum Failure {
    Unread,
    Unwritten,
}

impl Display for Failure {
    fn fmt<W: fmt::Write>(&self, f: &mut Formatter<W>) -> fmt::Result {
        match self {
            Failure::Unread => write!(f, "planner: the input could not be read to its end"),
            Failure::Unwritten => write!(f, "planner: the output could not be written"),
        }
    }
}

// Fills the buffer from the input, as far as that goes. An input whose reading failed is none, however many bytes came
// before. The library's own loops of this kind fill a `Vec`, and there is no heap, or tell of no count where the input
// ends early.
pub fn read_input<R: Read>(input: &mut R, buf: &mut [u8]) -> io::Result<usize>
    ensures bound { ReadsAtMost result buf.new }
    ensures bytes { IfOk result (IsInput (R.remaining input.old) buf.new) }
{
    let mut done = 0;
    while done < buf.len() {
        let more = input.read(&mut buf[done..])?;
        if more == 0 {
            break;
        }
        done += more;
    }
    Ok(done)
}

// Reads the input into `bytes`, lets `print` put into `out` what it prints for that, and writes it to the output.
pub fn transform<R: Read, W: Write, F: Fn(&[u8], &mut [u8]) -> usize>(
    input: &mut R,
    output: &mut W,
    bytes: &mut [u8],
    out: &mut [u8],
    print: F,
) -> Result<(), Failure>
    requires may { MayPrint (F.pre print) (length out.old) }
    requires fits { StaysWithin (F.post print) }
    ensures { Transformed (F.post print) (R.remaining input.old) (length bytes.old) out.old (W.contents output.old) (W.contents output.new) result }
{
    let n = read_input(input, bytes).map_err(|_| Failure::Unread)?;
    let m = print(&bytes[..n], out);
    output.write_all(&out[..m]).map_err(|_| Failure::Unwritten)
}

// Writes a line for people. That it cannot be written is nothing that anybody could be told.
fn say<R: Eprint>(rt: &R, failure: Failure) {
    let _ = rt.eprintln(failure);
}

// The two ends of a program by themselves, for one that does other work between them. They promise nothing, as no contract knows
// what was printed.

// Writes all of these bytes to the output, or says that this failed.
pub fn write_output<R: Print + Eprint>(rt: &R, bytes: &[u8]) {
    if rt.write_all(bytes).is_err() {
        say(rt, Failure::Unwritten);
    }
}

// Says that there is no answer, as the input was not read to its end.
pub fn say_unread<R: Eprint>(rt: &R) {
    say(rt, Failure::Unread);
}

// A program: this from the input to the output of a host. A line for people tells of a failure. It promises nothing, as no
// contract knows the bytes of standard input and output; what can be said is said of `transform`, and the programs are tested.
pub fn run<R: Input + Print + Eprint, F: Fn(&[u8], &mut [u8]) -> usize>(
    rt: &R,
    bytes: &mut [u8],
    out: &mut [u8],
    print: F,
)
    requires may { MayPrint (F.pre print) (length out.old) }
    requires fits { StaysWithin (F.post print) }
{
    let done = transform(&mut rt.reader(), &mut io::writer(rt), bytes, out, print);
    if let Err(failure) = done {
        say(rt, failure);
    }
}
