// A word as text.
ghost use Rattle.std.specs.Prelude.{Some};
ghost use Rattle.runimage.specs.Text.{spaced_of};

use std::fmt;

// A space and eight digits.
#[derive(Drop)]
pub struct Word(pub u32);

impl fmt::Display for Word {
    ghost output = { λ w. Some (spaced_of w.0) };

    fn fmt<W: fmt::Write>(&self, f: &mut fmt::Formatter<W>) -> fmt::Result {
        let word = self.0;
        write!(f, " {word:08X}")
    }
}
