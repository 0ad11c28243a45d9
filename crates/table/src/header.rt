// The sizes in a table's header, and refusals 1 to 3.
ghost use Rattle.std.specs.Prelude.{◌≡◌, ◌-◌, ◌≤◌, length};
ghost use Rattle.table.specs.Tables.{header_bytes, within_limits, roots_of};
ghost use Rattle.table.specs.Sound.{Limits};
ghost use Rattle.table.specs.Measuring.{SixteenBits, Header, Measure};

use super::{Fleet, Refused, Sizes};

// Bytes of the sizes, before the kinds.
pub const HEADER_BYTES: usize = 12;

// Agents that a fleet has at most.
pub const AGENTS: usize = 32;

// Keys that a store has at most.
pub const KEYS: usize = 16;

impl Sizes {
    // The first of the last D + S + A nodes.
    pub fn first_root(self) -> usize
        requires { Limits self }
        ensures { result ≡ self.nodes - roots_of self }
    {
        self.nodes - (self.definitions + self.stigmergy + self.agents)
    }
}

fn header(table: &[u8]) -> Sizes
    requires { header_bytes ≤ length table.now }
    ensures { Header table.now result }
{
    Sizes {
        nodes: basis::u16_at(table, 0),
        definitions: basis::u16_at(table, 2),
        agents: basis::u16_at(table, 4),
        attributes: basis::u16_at(table, 6),
        stigmergy: basis::u16_at(table, 8),
        environment: basis::u16_at(table, 10),
    }
}

#[tactic(auto, unfolding(crate::specs::Tables::within_limits))]
fn within(sizes: Sizes) -> bool
    requires { SixteenBits sizes }
    ensures { result ≡ within_limits sizes }
{
    1 <= sizes.nodes
        && sizes.nodes <= 4096
        && sizes.definitions <= 64
        && 1 <= sizes.agents
        && sizes.agents <= AGENTS
        && sizes.attributes <= KEYS
        && sizes.stigmergy <= KEYS
        && sizes.environment <= KEYS
        && sizes.definitions + sizes.stigmergy + sizes.agents <= sizes.nodes
}

// Refusals 1 to 3, for any bytes. What passes them is a fleet's table, with its kinds and operands.
pub fn measure<'a>(table: &'a [u8]) -> Result<Fleet<'a>, Refused>
    ensures { Measure table.now result }
{
    if table.len() < HEADER_BYTES {
        return Err(Refused::TableShort);
    }
    let sizes = header(table);
    if !within(sizes) {
        return Err(Refused::SizeOutsideLimits);
    }
    if table.len() != HEADER_BYTES + 5 * sizes.nodes {
        return Err(Refused::TableLength);
    }
    let operands = HEADER_BYTES + sizes.nodes;
    Ok(Fleet {
        sizes,
        kinds: &table[HEADER_BYTES..operands],
        operands: &table[operands..],
    })
}
