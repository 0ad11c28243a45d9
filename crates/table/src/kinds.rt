// The list of kinds: which sort a kind is, and what its fields hold.
ghost use Rattle.std.specs.Prelude.{◌≡◌};
ghost use Rattle.basis.specs.NodeKinds.{number_of};
ghost use Rattle.table.specs.Nodes.{is_process, is_guard, is_expression, is_node, fields_of};

use super::{Field, Fields};
use basis::NodeKind;

// The first and the last kinds of processes, guards and expressions. Tests are of a byte, since before refusal 4 it may
// be any.
const CALL: u8 = NodeKind::Call as u8;

const TRUE: u8 = NodeKind::True as u8;

const OR: u8 = NodeKind::Or as u8;

const CONSTANT: u8 = NodeKind::Constant as u8;

const REMAINDER: u8 = NodeKind::Remainder as u8;

pub fn is_process(kind: u8) -> bool
    ensures { result ≡ is_process kind }
{
    kind <= CALL
}

pub fn is_guard(kind: u8) -> bool
    ensures { result ≡ is_guard kind }
{
    matches!(kind, TRUE..=OR)
}

pub fn is_expression(kind: u8) -> bool
    ensures { result ≡ is_expression kind }
{
    matches!(kind, CONSTANT..=REMAINDER)
}

impl Field {
    // Whether the field names a node.
    pub fn is_node(self) -> bool
        ensures { result ≡ is_node self }
    {
        matches!(self, Field::Process | Field::Guard | Field::Expression)
    }
}

pub const NOTHING: Fields = Fields {
    p: Field::Never,
    q: Field::Never,
};

const ZEROS: Fields = Fields {
    p: Field::Zero,
    q: Field::Zero,
};

const PROCESSES: Fields = Fields {
    p: Field::Process,
    q: Field::Process,
};

const GUARDS: Fields = Fields {
    p: Field::Guard,
    q: Field::Guard,
};

const EXPRESSIONS: Fields = Fields {
    p: Field::Expression,
    q: Field::Expression,
};

// What the fields of a kind hold. Those of a root go by its place.
#[tactic(auto, unfolding(crate::specs::Nodes::process_rows, crate::specs::Nodes::guard_rows, crate::specs::Nodes::expression_rows, crate::specs::Nodes::row_of))]
fn kind_fields(kind: NodeKind) -> Fields
    ensures { result ≡ fields_of (number_of kind) }
{
    match kind {
        NodeKind::Idle | NodeKind::Tick | NodeKind::True => ZEROS,
        NodeKind::SetAttribute => Fields {
            p: Field::Attribute,
            q: Field::Expression,
        },
        NodeKind::SetStigmergy => Fields {
            p: Field::Stigmergy,
            q: Field::Expression,
        },
        NodeKind::SetEnvironment => Fields {
            p: Field::Environment,
            q: Field::Expression,
        },
        NodeKind::Sequence | NodeKind::Choice | NodeKind::Parallel => PROCESSES,
        NodeKind::Guarded => Fields {
            p: Field::Guard,
            q: Field::Process,
        },
        NodeKind::Call => Fields {
            p: Field::Definition,
            q: Field::Zero,
        },
        NodeKind::Not => Fields {
            p: Field::Guard,
            q: Field::Zero,
        },
        NodeKind::And | NodeKind::Or => GUARDS,
        NodeKind::Constant => Fields {
            p: Field::Value,
            q: Field::Value,
        },
        NodeKind::Attribute => Fields {
            p: Field::Attribute,
            q: Field::Party,
        },
        NodeKind::Stigmergy => Fields {
            p: Field::Stigmergy,
            q: Field::Party,
        },
        NodeKind::Environment => Fields {
            p: Field::Environment,
            q: Field::Zero,
        },
        NodeKind::Equal | NodeKind::Less | NodeKind::Greater => EXPRESSIONS,
        NodeKind::Plus | NodeKind::Minus | NodeKind::Times => EXPRESSIONS,
        NodeKind::Divide | NodeKind::Remainder => EXPRESSIONS,
        NodeKind::Root => NOTHING,
    }
}

// What the fields of a kind hold, roots aside. Nothing fits where a byte names no kind.
pub fn fields_of(kind: u8) -> Fields
    ensures { result ≡ fields_of kind }
{
    match NodeKind::try_from(kind) {
        Ok(kind) => kind_fields(kind),
        Err(_) => NOTHING,
    }
}
