// The forms that a sheet comes in.
ghost use Rattle.std.specs.Prelude.{ℕ, List};
ghost use Rattle.scope.specs.Sheet.{weighted};
ghost use Rattle.scope.specs.Causes.{Read};
ghost use Rattle.scope.specs.Sheets.{SheetRead};
ghost use Rattle.scope.specs.Texts.{TextRead};
ghost use Rattle.scope.specs.Source.{Source};
ghost use Rattle.scope.proofs.Claims.{form_source};
ghost use Rattle.scope.specs.Source as scope;
ghost use Rattle.words.specs.Told.{Fills};

use words::Words;
use words::refusal::Cause;

// A form: what is read of bytes, and the reader that is proved to read that.
pub trait Form {
    ghost Reading: { List ℕ → Read → Type 0 };

    // Fills the words, or tells the cause to turn the bytes down.
    fn read(s: &[u8], words: &mut Words) -> Result<(), Cause>
        ensures { Fills (Reading s.now) result words.new };

    // what is read is a source for the jobs
    ghost source: { (s : List ℕ) (r : Read) → Reading s r → Source r };
}

// The fixed-column sheet.
pub struct Fixed;

impl Form for Fixed {
    ghost Reading = { SheetRead weighted };

    ghost source = { λ s r. form_source (scope.Form.sheet s) r };

    #[inline(always)]
    fn read(s: &[u8], words: &mut Words) -> Result<(), Cause> {
        sheet::read(s, words)
    }
}

// The typed text.
pub struct Typed;

impl Form for Typed {
    ghost Reading = { TextRead };

    ghost source = { λ s r. form_source (scope.Form.text s) r };

    #[inline(always)]
    fn read(s: &[u8], words: &mut Words) -> Result<(), Cause> {
        text::read(s, words)
    }
}
