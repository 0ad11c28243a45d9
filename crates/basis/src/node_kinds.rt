// The node kinds of a table.
ghost use Rattle.basis.specs.NodeKinds.{Names};

#[derive(Clone, Copy, Debug, PartialEq, Eq)]
pub enum NodeKind {
    Idle = 0,
    Tick = 1,
    SetAttribute = 2,
    SetStigmergy = 3,
    SetEnvironment = 4,
    Sequence = 5,
    Choice = 6,
    Guarded = 7,
    Parallel = 8,
    Call = 9,
    True = 16,
    Equal = 17,
    Less = 18,
    Greater = 19,
    Not = 20,
    And = 21,
    Or = 22,
    Constant = 32,
    Attribute = 33,
    Stigmergy = 34,
    Environment = 35,
    Plus = 36,
    Minus = 37,
    Times = 38,
    Divide = 39,
    Remainder = 40,
    Root = 64,
}

// A byte that names no kind.
#[derive(Clone, Copy, Debug, PartialEq, Eq)]
pub struct UnknownKind(pub u8);

impl TryFrom<u8> for NodeKind {
    type Error = UnknownKind;

    ghost try_from_gives = { Names };

    // Inlined, a match on what it gives goes by the byte: a call made accepting a table a tenth slower.
    #[inline(always)]
    fn try_from(byte: u8) -> Result<Self, UnknownKind> {
        match byte {
            0 => Ok(NodeKind::Idle),
            1 => Ok(NodeKind::Tick),
            2 => Ok(NodeKind::SetAttribute),
            3 => Ok(NodeKind::SetStigmergy),
            4 => Ok(NodeKind::SetEnvironment),
            5 => Ok(NodeKind::Sequence),
            6 => Ok(NodeKind::Choice),
            7 => Ok(NodeKind::Guarded),
            8 => Ok(NodeKind::Parallel),
            9 => Ok(NodeKind::Call),
            16 => Ok(NodeKind::True),
            17 => Ok(NodeKind::Equal),
            18 => Ok(NodeKind::Less),
            19 => Ok(NodeKind::Greater),
            20 => Ok(NodeKind::Not),
            21 => Ok(NodeKind::And),
            22 => Ok(NodeKind::Or),
            32 => Ok(NodeKind::Constant),
            33 => Ok(NodeKind::Attribute),
            34 => Ok(NodeKind::Stigmergy),
            35 => Ok(NodeKind::Environment),
            36 => Ok(NodeKind::Plus),
            37 => Ok(NodeKind::Minus),
            38 => Ok(NodeKind::Times),
            39 => Ok(NodeKind::Divide),
            40 => Ok(NodeKind::Remainder),
            64 => Ok(NodeKind::Root),
            _ => Err(UnknownKind(byte)),
        }
    }
}
