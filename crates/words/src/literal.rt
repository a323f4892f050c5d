// A literal, and its code: k is 2k, and -k is 2k + 1.
ghost use Rattle.std.specs.Prelude.{◌≡◌, ◌≤◌};
ghost use Rattle.scope.specs.Words as scope;
ghost use Rattle.words.specs.Entries.{literal_of, literals_of, literals_there};

// Switch k on, or off where there is a minus.
#[derive(Clone, Copy)]
pub struct Literal {
    pub minus: bool,
    pub switch: u32,
}

impl Literal {
    // What a code stands for: 0 is none.
    #[tactic(auto, unfolding(crate::specs::Entries::literals_of))]
    pub fn in_code(code: u32) -> Option<Literal>
        ensures { literals_there result ≡ literals_of code }
    {
        (code != 0).then_some(Literal::from(code))
    }

    // No `From`, since only a small switch has a code.
    pub fn code(self) -> u32
        requires { self.switch ≤ 99 }
        ensures { result ≡ scope.literal_code (literal_of self) }
    {
        self.switch * 2 + u32::from(self.minus)
    }
}

impl From<u32> for Literal {
    ghost use Rattle.std.specs.Prelude.{◌≡◌};
    ghost use Rattle.scope.specs.Words.{literal_from};
    ghost use Rattle.words.specs.Entries.{literal_of};

    ghost from_gives = { λ code l. literal_of l ≡ literal_from code };

    fn from(code: u32) -> Literal {
        Literal {
            minus: code % 2 == 1,
            switch: code / 2,
        }
    }
}
