// Wishes: which a plan keeps, and what it costs.
ghost use Rattle.std.specs.Prelude.{◌≡◌, ◌<◌, length, get_or};
ghost use Rattle.scope.specs.Words.{no_wish};
ghost use Rattle.scope.specs.Meaning as meaning;

use crate::planned::Planned;

impl Planned<'_> {
    // Whether wish i is kept, counted from 0.
    #[tactic(auto, unfolding(scope::specs::Meaning::kept, scope::specs::Meaning::switch_on))]
    pub fn is_kept(self, i: usize) -> bool
        requires { i < length self.sheet.now.wishes }
        ensures { result ≡ meaning.kept self.entry.sheet.now self.entry.plan.0 (get_or self.entry.sheet.now.wishes i no_wish).clause }
    {
        self.switches().keeps(self.sheet.wish(i).clause)
    }

    // The weight of the wishes that the plan breaks. Each is tested once, by its own literals.
    pub fn cost(self) -> u32
        ensures { result ≡ meaning.cost self.entry.sheet.now self.entry.plan.0 }
    {
        let switches = self.switches();
        let mut sum = 0;
        for i in 0..self.sheet.counts().wishes as usize {
            let wish = self.sheet.wish(i);
            if !switches.keeps(wish.clause) {
                sum += wish.weight;
            }
        }
        sum
    }
}
