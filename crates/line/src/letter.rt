// The letters of lines; a listing has its own (`listing::row`).
use field::Malformed;
use words::byte::{AND, NOT, OR};

const HEAD: u8 = b'H';

const RULE: u8 = b'R';

const WISH: u8 = b'W';

const END: u8 = b'Z';

#[derive(Clone, Copy, PartialEq, Eq)]
pub enum Letter {
    Head = HEAD as isize,
    Not = NOT as isize,
    And = AND as isize,
    Or = OR as isize,
    Rule = RULE as isize,
    Wish = WISH as isize,
    End = END as isize,
}

impl From<Letter> for u8 {
    ghost use Rattle.std.specs.Prelude.{◌≡◌};
    ghost use Rattle.scope.specs.Sheet.{letter_byte};
    ghost use Rattle.line.specs.Lines.{letter_from};

    ghost from_gives = { λ l b. b ≡ letter_byte (letter_from l) };

    fn from(letter: Letter) -> u8 {
        letter as u8
    }
}

// The letter of a byte. A line that begins with any other byte stops in column 1.
impl TryFrom<u8> for Letter {
    ghost use Rattle.line.specs.Lines.{LetterRead};

    type Error = Malformed;

    ghost try_from_gives = { LetterRead };

    #[tactic(auto, unfolding(scope::specs::Reading::letter_of))]
    fn try_from(b: u8) -> Result<Letter, Malformed> {
        match b {
            HEAD => Ok(Letter::Head),
            NOT => Ok(Letter::Not),
            AND => Ok(Letter::And),
            OR => Ok(Letter::Or),
            RULE => Ok(Letter::Rule),
            WISH => Ok(Letter::Wish),
            END => Ok(Letter::End),
            _ => Err(Malformed { column: 1 }),
        }
    }
}
