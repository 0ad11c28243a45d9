// The machine at its limits: agents, the clock, a residual's words. A line for each answer.
#![tactic(auto)]

mod fleets; // fleets.rt: tables, and a schedule

ghost use Rattle.std.specs.Prelude.{◌<◌, ◌≤◌};

use fleets::{ACT, PROPAGATE, nested, ticking, write_often, writing};
use state::{STATE_WORDS, Store, clock_of, length_at, mark_at};
use std::io;
use steps::Tally;
use table::{HEADER_BYTES, Refused};

// 31 runs of 2,114 writes are 65,534 writes.
const RUNS: usize = 31;

const WRITES: u16 = 2114;

// The bytes of the largest table here, of 67 nodes.
const TABLE_BYTES: usize = 347;

// What the machine is lent.
#[derive(Drop)]
struct Lent {
    state: [u32; STATE_WORDS],
    scratch: [u32; 8192],
}

impl Lent {
    fn load(&mut self, fleet: &[u8]) -> Result<(), Refused> {
        machine::load(fleet, &mut self.state, &mut self.scratch)
    }

    // A step of agent 0: its choice or key is 0.
    fn step(&mut self, fleet: &[u8], kind: u8) -> Result<Tally, Refused> {
        machine::step(fleet, &mut self.state, &mut self.scratch, kind, 0, 0)
    }

    // Whether a run does all its steps.
    fn runs(&mut self, fleet: &[u8], schedule: &[u8], answers: &mut [u8]) -> bool {
        let ran = machine::run(fleet, &mut self.state, &mut self.scratch, schedule, answers);
        ran.is_ok_and(|totals| totals.done == 2 * u32::from(WRITES))
    }
}

fn print_answer<T: Drop>(rt: &impl Print, answer: Result<T, Refused>) -> io::Result<()> {
    match answer {
        Ok(_) => print!(rt; " done"),
        Err(refused) => {
            let number = refused.number();
            print!(rt; " refused {number}")
        }
    }
}

fn show_load(rt: &impl Print, fleet: &[u8], lent: &mut Lent) -> io::Result<()> {
    print_answer(rt, lent.load(fleet))?;
    println!(rt)
}

// Load of so many agents.
fn show_agents(
    rt: &impl Print,
    table: &mut [u8; TABLE_BYTES],
    lent: &mut Lent,
    agents: u16,
) -> io::Result<()>
    requires { agents < 64 }
{
    print!(rt; "agents {agents}")?;
    ticking(table, agents);
    let size = HEADER_BYTES + 5 * (1 + usize::from(agents));
    show_load(rt, &table[..size], lent)
}

// Writes until the clock is 65,534.
fn show_writes(rt: &impl Print, fleet: &[u8], lent: &mut Lent) -> io::Result<()> {
    let mut schedule = [0; 21142];
    let mut answers = [0; 4228];
    write_often(&mut schedule, WRITES);
    let runs = (0..RUNS)
        .filter(|_| lent.runs(fleet, &schedule, &mut answers))
        .count();
    let clock = clock_of(&lent.state);
    println!(rt; "runs {runs} clock {clock}")
}

// A write, and the stamp of the entry.
fn show_write(rt: &impl Print, fleet: &[u8], lent: &mut Lent) -> io::Result<()> {
    let answer = lent.step(fleet, ACT);
    print!(rt; "write")?;
    print_answer(rt, answer)?;
    let stamp = lent.state[mark_at(Store::Entries(0), 0)];
    println!(rt; " stamp {stamp}")
}

fn show_propagate(rt: &impl Print, fleet: &[u8], lent: &mut Lent) -> io::Result<()> {
    let answer = lent.step(fleet, PROPAGATE);
    print!(rt; "propagate")?;
    print_answer(rt, answer)?;
    println!(rt)
}

// The last two writes: the second finds no stamp. Between them the key is propagated, so that Zp is empty again.
fn show_last_writes(rt: &impl Print, fleet: &[u8], lent: &mut Lent) -> io::Result<()> {
    print!(rt; "writing fleet")?;
    show_load(rt, fleet, lent)?;
    show_writes(rt, fleet, lent)?;
    show_write(rt, fleet, lent)?;
    show_propagate(rt, fleet, lent)?;
    show_write(rt, fleet, lent)
}

fn show_clock(rt: &impl Print, table: &mut [u8; TABLE_BYTES], lent: &mut Lent) -> io::Result<()> {
    writing(table);
    show_last_writes(rt, &table[..52], lent)
}

// An act that is to leave so many words, and how many the residual has then.
fn show_act(rt: &impl Print, fleet: &[u8], lent: &mut Lent, words: u16) -> io::Result<()> {
    let answer = lent.step(fleet, ACT);
    print!(rt; "residual {words}")?;
    print_answer(rt, answer)?;
    let left = lent.state[length_at(0)];
    println!(rt; " words {left}")
}

fn show_nested(rt: &impl Print, fleet: &[u8], lent: &mut Lent, words: u16) -> io::Result<()> {
    print!(rt; "nested fleet")?;
    show_load(rt, fleet, lent)?;
    show_act(rt, fleet, lent, words)
}

fn show_residual(
    rt: &impl Print,
    table: &mut [u8; TABLE_BYTES],
    lent: &mut Lent,
    depth: u16,
) -> io::Result<()>
    requires { depth ≤ 32 }
{
    nested(table, depth);
    let size = HEADER_BYTES + 5 * (2 * usize::from(depth) + 3);
    show_nested(rt, &table[..size], lent, 2 * depth + 1)
}

fn main(rt: HostRuntime) -> io::Result<()> {
    let mut table = [0; TABLE_BYTES];
    let mut lent = Lent {
        state: [0; STATE_WORDS],
        scratch: [0; 8192],
    };
    show_agents(&rt, &mut table, &mut lent, 32)?;
    show_agents(&rt, &mut table, &mut lent, 33)?;
    show_clock(&rt, &mut table, &mut lent)?;
    show_residual(&rt, &mut table, &mut lent, 31)?;
    show_residual(&rt, &mut table, &mut lent, 32)
}
