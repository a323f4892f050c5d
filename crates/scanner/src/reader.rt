// The reader of typed texts: it stands at a place, and moves on past what is asked for there. The papers ask for this struct and for thin
// functions over a plain slice and a number: the work is in `byte_at` and `same_bytes`, and callers use `look`, `next_is`, `past_byte`,
// `past_word` and `skip`. So a text and a place are two parameters here and in the crates above, and that the place is in the text is
// asked for there: a `Reader` that has this fact would be made at each call.
ghost use Rattle.std.specs.Prelude.{[], ◌∷◌, ◌≡◌, ◌+◌, ◌<◌, ◌^◌, eqb};
ghost use Rattle.scanner.specs.Look as specs;

use words::byte::SPACE;

// It holds the lent text and a position.
#[derive(Clone, Copy)]
pub struct Reader<'a> {
    pub text: &'a [u8],
    pub at: usize,
}

// before what is turned round, in formulas and in wishes
pub const BANG: u8 = b'!';

// What stands at a place of a text.
fn byte_at(text: &[u8], at: usize) -> Option<u8>
    ensures { specs.byte_of result ≡ specs.look text.now at }
{
    text.get(at).copied()
}

// Whether this byte stands there.
pub fn next_is(text: &[u8], at: usize, b: u8) -> bool
    ensures { result ≡ eqb (specs.look text.now at) b }
{
    byte_at(text, at) == Some(b)
}

// How many bytes of a word stand from there on; the place past them is a number. (By `position`, the closure would not know that
// `at + i` fits, which follows from the bytes before having stood there.)
fn same_bytes(text: &[u8], at: usize, word: &[u8]) -> usize
    ensures value { result ≡ specs.standing text.now at word.now }
    ensures fits { at + result < 2 ^ 64 }
{
    for (i, b) in word.iter().enumerate() {
        if !next_is(text, at + i, *b) {
            return i;
        }
    }
    word.len()
}

impl<'a> Reader<'a> {
    pub fn new(text: &'a [u8], at: usize) -> Reader<'a>
        ensures { (result.text ≡ text.entry) × (result.at ≡ at) }
    {
        Reader { text, at }
    }

    // What stands where the reader is.
    fn peek(self) -> Option<u8>
        ensures { specs.byte_of result ≡ specs.look self.entry.text.now self.entry.at }
    {
        byte_at(self.text, self.at)
    }

    // Past as much of a word as stands here.
    fn pass_word(self, word: &[u8]) -> Reader<'a>
        ensures { (result.text ≡ self.entry.text) × (result.at ≡ specs.past self.entry.text.now self.entry.at word.now) }
    {
        Reader {
            at: self.at + same_bytes(self.text, self.at, word),
            ..self
        }
    }

    // Past a byte, if it stands here.
    fn pass_byte(self, b: u8) -> Reader<'a>
        ensures { (result.text ≡ self.entry.text) × (result.at ≡ specs.past self.entry.text.now self.entry.at (b ∷ [])) }
    {
        self.pass_word(&[b])
    }
}

// What stands at a place of a text. The parameters are a plain slice and a number, here and below.
pub fn look(text: &[u8], at: usize) -> Option<u8>
    ensures { specs.byte_of result ≡ specs.look text.now at }
{
    Reader::new(text, at).peek()
}

// The place that a reader comes to from there, past a byte if it stands there.
pub fn past_byte(text: &[u8], at: usize, b: u8) -> usize
    ensures { result ≡ specs.past text.now at (b ∷ []) }
{
    Reader::new(text, at).pass_byte(b).at
}

// The same, past as much of a word as stands there.
pub fn past_word(text: &[u8], at: usize, word: &[u8]) -> usize
    ensures { result ≡ specs.past text.now at word.now }
{
    Reader::new(text, at).pass_word(word).at
}

// The next significant place.
pub fn skip(text: &[u8], at: usize) -> usize
    ensures { result ≡ specs.skip text.now at }
{
    past_byte(text, at, SPACE)
}
