// The agent from whom expressions and guards are judged.
ghost use Rattle.evaluation.specs.Situated.{Placed};

use table::Fleet;

// A fleet's table, the words of a state of it, and an agent.
#[derive(Clone, Copy)]
pub struct Sender<'a> {
    pub fleet: Fleet<'a>,
    pub state: &'a [u32],
    pub agent: usize,
    pub ghost placed: { Placed state.now agent },
}
