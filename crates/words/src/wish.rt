// The wishes of a sheet.
ghost use Rattle.std.specs.Prelude.{◌≡◌, ◌<◌};
ghost use Rattle.scope.specs.Sheet.{plus, most_wishes};
ghost use Rattle.scope.specs.Causes.{is_weight};
ghost use Rattle.words.specs.Entries.{wish_words_at, WishPut};

use crate::Words;
use crate::counts::WISHES;
use crate::limit::{MOST_LITERALS, MOST_RULES, MOST_WEIGHT, MOST_WISHES};
use crate::literal::Literal;
use crate::rule::FIRST_RULE;
use crate::table::{Table, entry, push};

// The literals of a wish.
pub type Clause = [Option<Literal>; MOST_LITERALS];

// A wish: its literals, and what breaking it costs.
#[derive(Clone, Copy)]
pub struct Wish {
    pub clause: Clause,
    pub weight: u32,
}

// what a wish weighs that does not say it
pub const DEFAULT_WEIGHT: u32 = 1;

// Whether a wish may weigh so much.
pub fn is_weight(weight: u32) -> bool
    ensures { result ≡ is_weight (plus weight) }
{
    0 < weight && weight <= MOST_WEIGHT
}

// Its words: the codes of its literals, zeros up to three, and its weight, as the tables of the calls for C have them.
pub const WISH_SIZE: usize = MOST_LITERALS + 1;

pub type WishWords = [u32; WISH_SIZE];

// where the wishes begin
pub const FIRST_WISH: usize = FIRST_RULE + MOST_RULES as usize;

const TABLE: Table<WISH_SIZE> = Table {
    count: WISHES,
    first: FIRST_WISH,
    most: MOST_WISHES,
};

// The words of wish i, counted from 0.
pub fn wish_at(words: &Words, i: usize) -> WishWords
    requires { i < most_wishes }
    ensures { result ≡ wish_words_at words.now i }
{
    entry(TABLE, words, i)
}

// One more wish, if there is room.
#[tactic(auto, using(crate::specs::Laws::Puts::wish_put))]
pub fn put_wish(words: &mut Words, wish: WishWords)
    ensures { WishPut wish words.old words.new }
{
    push(TABLE, words, wish);
}
