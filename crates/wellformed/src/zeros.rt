// Words that are all 0.
ghost use Rattle.std.specs.Prelude.{◌≡◌};
ghost use Rattle.state.specs.WellFormed.{all_zero};

// The words are joined by or in one pass without a branch for each.
pub fn all_zero(words: &[u32]) -> bool
    ensures { result ≡ all_zero words.now }
{
    words.iter().fold(0, |joined, word| joined | word) == 0
}
