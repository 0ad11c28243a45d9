// What a derivation does, and how many words it leaves.
ghost use Rattle.std.specs.Prelude.{◌≡◌, ◌+◌, ◌≤◌};
ghost use Rattle.choice.specs.Turns.{kept_size};
ghost use Rattle.choice.specs.Outcomes.{grown_by};

use crate::{Effect, Kept};

impl Effect {
    // The same, with more words.
    pub fn grown(self, words: usize) -> Self
        requires { self.size + words ≤ 4294967295 }
        ensures { result ≡ grown_by self words }
    {
        Effect {
            size: self.size + words,
            ..self
        }
    }
}

impl Kept {
    // How many words stay.
    pub fn words(self) -> usize
        ensures { result ≡ kept_size self }
    {
        match self {
            Kept::Nothing => 0,
            Kept::Right { .. } | Kept::Left { .. } => 2,
        }
    }
}
