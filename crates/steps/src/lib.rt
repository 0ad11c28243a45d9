// Load, act, propagate, confirm, step, preview, run, save, restore and drop: definitions in specs/, laws in proofs/. In
// code, what an offer does to an agent, and what a step counts.
#![tactic(auto)]

ghost use Rattle.std.specs.Prelude.{◌≡◌, ◌+◌, ◌^◌, ◌<◌};
ghost use Rattle.steps.specs.Tallies.{add_tally, taken};

use state::Insertion;
use std::ops::Add;

// What an offer does to an agent: it takes the entry, by ADD or UPDATE of Table 1; it has a newer one, which it then has
// to propagate; or neither.
#[derive(Clone, Copy)]
pub enum Response {
    Takes(Insertion),
    Propagates,
    Ignores,
}

// What a step counts: the agents that take an entry, those that had none and those that had an older one.
#[derive(Clone, Copy, Default)]
pub struct Tally {
    pub added: u32,
    pub replaced: u32,
}

impl Tally {
    // How many agents take an entry.
    pub fn taken(self) -> usize
        ensures { result ≡ taken self }
    {
        self.added as usize + self.replaced as usize
    }
}

impl Add for Tally {
    type Output = Tally;

    ghost can_add = { λ p q. (p.added + q.added < 2 ^ 32) × (p.replaced + q.replaced < 2 ^ 32) };

    ghost add_gives = { λ p q r. r ≡ add_tally p q };

    fn add(self, other: Tally) -> Tally {
        Tally {
            added: self.added + other.added,
            replaced: self.replaced + other.replaced,
        }
    }
}
