// The lines of agents and of a state.
#![tactic(auto, using(crate::proofs::Parts::joined), unfolding(crate::proofs::Parts::states))]

ghost use Rattle.std.specs.Prelude.{◌<◌, get_or};
ghost use Rattle.table.specs.Tables.{agent_limit};
ghost use Rattle.state.specs.Layout.{agents_at};
ghost use Rattle.lines.specs.Text.{each_below};
ghost use Rattle.lines.specs.Lines.{agent_lines, fleet_lines, state_lines};
ghost use Rattle.lines.specs.Writing.{Fleet};
ghost use Rattle.lines.specs.Pages.{HasRoom, Writes};

use crate::page::Page;
use crate::rows::clock_line;
use crate::stores::{State, pending_lines, store_lines};
use state::{AGENTS, Store, clock_of, zc_at, zp_at};

fn agent_lines(page: &mut Page, state: &State, agent: usize)
    requires { (agent < agent_limit) × HasRoom (agent_lines state.now.words.now agent) page.old }
    ensures { Writes (agent_lines state.now.words.now agent) page.old page.new }
{
    store_lines(page, state, Store::Attributes(agent));
    store_lines(page, state, Store::Entries(agent));
    pending_lines(page, b"c", agent, state.words[zc_at(agent)]);
    pending_lines(page, b"p", agent, state.words[zp_at(agent)]);
}

fn fleet_lines(page: &mut Page, state: &State)
    requires { HasRoom (fleet_lines state.now.words.now) page.old }
    ensures { Writes (fleet_lines state.now.words.now) page.old page.new }
{
    for agent in 0..state.words[AGENTS] as usize {
        agent_lines(page, state, agent);
    }
}

pub fn state_lines(page: &mut Page, state: &[u32])
    requires { Fleet state.now × HasRoom (state_lines state.now) page.old }
    ensures { Writes (state_lines state.now) page.old page.new }
{
    let state = State { words: state };
    clock_line(page, clock_of(state.words));
    store_lines(page, &state, Store::Environment);
    fleet_lines(page, &state);
}
