// The residual of an agent becomes what its choice leaves.
ghost use Rattle.std.specs.Prelude.{◌≡◌};
ghost use Rattle.accept.specs.Accepted.{accepted_table};
ghost use Rattle.term.specs.Terms.{words};
ghost use Rattle.steps.specs.Acts.{chosen, leave as leave_in};
ghost use Rattle.acting.specs.Acting.{Leaving};

use accept::Accepted;
use residual::choosing::rewrite;
use state::{RESIDUAL_WORDS, length_at, residual_at};

pub fn leave(accepted: &Accepted, state: &mut [u32], agent: usize, c: u64)
    requires { Leaving (accepted_table accepted.now) state.old agent c }
    ensures { let t = accepted_table accepted.now in state.new ≡ leave_in agent (words (chosen t state.old agent c).leaving) state.old }
{
    let place = length_at(agent);
    let at = residual_at(agent);
    let end = at + RESIDUAL_WORDS;
    let size = state[place] as usize;
    let left = rewrite(accepted, &mut state[at..end], size, c);
    state[place] = left as u32;
}
