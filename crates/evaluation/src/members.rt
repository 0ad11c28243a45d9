// The agents of a set, one by one.
ghost use Rattle.std.specs.Iterator.{at_most};
ghost use Rattle.evaluation.specs.Sets.{TakesOne};

// The agents that are left, the lowest first.
#[derive(Clone, Copy)]
pub struct Members(pub u32);

impl Iterator for Members {
    type Item = usize;

    ghost next_gives = { λ s r t. TakesOne s.0 r t.0 };

    ghost remaining = { λ s. at_most s.0 };

    #[tactic(auto, using(basis::proofs::KeySets::minus_less))]
    fn next(&mut self) -> Option<usize> {
        if self.0 == 0 {
            return None;
        }
        let agent = basis::lowest(self.0);
        self.0 = basis::minus(self.0, agent);
        Some(agent)
    }
}
