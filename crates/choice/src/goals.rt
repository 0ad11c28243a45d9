// Where a walk goes to.
ghost use Rattle.std.specs.Prelude.{◌≡◌};
ghost use Rattle.choice.specs.Turns.{goal_of};

use crate::Goal;
use term::Mode;

impl<P> Goal<P> {
    pub fn new(from: P, mode: Mode, choice: u64) -> Self
        ensures { result ≡ goal_of from mode choice }
    {
        Goal { from, mode, choice }
    }
}
