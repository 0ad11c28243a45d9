// Fleet tables, and a schedule, that reach a limit of the machine.
ghost use Rattle.std.specs.Prelude.{◌+◌, ◌*◌, ◌<◌, ◌≤◌, length};

use basis::NodeKind;
use table::HEADER_BYTES;

// Kinds of steps.
pub const ACT: u8 = 0;

pub const PROPAGATE: u8 = 1;

// A node: its kind and its operands.
#[derive(Clone, Copy)]
struct Node(NodeKind, u16, u16);

fn put_u16(bytes: &mut [u8], at: usize, n: u16)
    requires { at + 1 < length bytes.old }
{
    bytes[at..at + 2].copy_from_slice(&n.to_le_bytes());
}

// A table of these nodes; D, A, I and S are given, and V is 0.
fn put_table(table: &mut [u8], sizes: [u16; 4], nodes: &[Node])
    requires { (length nodes.now < 65536) × (12 + 5 * length nodes.now ≤ length table.old) }
{
    let (header, rows) = table.split_at_mut(HEADER_BYTES);
    put_u16(header, 0, nodes.len() as u16);
    for (i, size) in sizes.iter().enumerate() {
        put_u16(header, 2 + 2 * i, *size);
    }
    put_u16(header, 10, 0);
    let (kinds, operands) = rows.split_at_mut(nodes.len());
    for (i, Node(kind, p, q)) in nodes.iter().enumerate() {
        kinds[i] = *kind as u8;
        put_u16(operands, 4 * i, *p);
        put_u16(operands, 4 * i + 2, *q);
    }
}

// Agents that tick, all of them by the same node. A table of 1 + agents nodes.
pub fn ticking(table: &mut [u8], agents: u16)
    requires { (agents < 64) × (12 + 5 * (1 + agents) ≤ length table.old) }
{
    let mut nodes = [Node(NodeKind::Root, 0, 0); 64];
    nodes[0] = Node(NodeKind::Tick, 0, 0);
    put_table(table, [0, agents, 0, 0], &nodes[..1 + usize::from(agents)]);
}

// One agent and one key, which it writes again and again: definition 0 and the agent's process are write ; call 0. A
// table of 8 nodes.
pub fn writing(table: &mut [u8])
    requires { 52 ≤ length table.old }
{
    let nodes = [
        Node(NodeKind::Constant, 7, 0),
        Node(NodeKind::SetStigmergy, 0, 0),
        Node(NodeKind::Call, 0, 0),
        Node(NodeKind::Sequence, 1, 2),
        Node(NodeKind::True, 0, 0),
        Node(NodeKind::Root, 3, 0),
        Node(NodeKind::Root, 4, 0),
        Node(NodeKind::Root, 3, 0),
    ];
    put_table(table, [1, 1, 0, 1], &nodes);
}

// Writes of agent 0, each followed by the propagate of its key. Every other byte of the schedule is 0 already: agents,
// choices and keys.
pub fn write_often(schedule: &mut [u8], writes: u16)
    requires { (writes ≤ 4096) × (2 + 2 * writes ≤ length schedule.old) }
{
    put_u16(schedule, 0, 2 * writes);
    for kinds in schedule[2..2 + 2 * usize::from(writes)].chunks_exact_mut(2) {
        kinds.copy_from_slice(&[ACT, PROPAGATE]);
    }
}

// One agent, whose process is an action beside so many idle ones, ((action | idle) | idle) ..: the action leaves all of
// it, 2 * depth + 1 words. A table of 2 * depth + 3 nodes.
pub fn nested(table: &mut [u8], depth: u16)
    requires { (depth < 64) × (12 + 5 * (2 * depth + 3) ≤ length table.old) }
{
    let mut nodes = [Node(NodeKind::Idle, 0, 0); 129];
    nodes[0] = Node(NodeKind::Constant, 7, 0);
    nodes[1] = Node(NodeKind::SetAttribute, 0, 0);
    for i in 1..=depth {
        nodes[2 * usize::from(i) + 1] = Node(NodeKind::Parallel, 2 * i - 1, 2 * i);
    }
    let last = 2 * depth + 2;
    nodes[usize::from(last)] = Node(NodeKind::Root, last - 1, 0);
    put_table(table, [0, 1, 1, 0], &nodes[..=usize::from(last)]);
}
