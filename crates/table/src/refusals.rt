// Why a call is refused: the paper's table of refusals.
ghost use Rattle.std.specs.Prelude.{◌≡◌};
ghost use Rattle.table.specs.Checks.{number_of, place_of};
ghost use Rattle.table.specs.Refusals.{check_of};

// A refusal, with its place where it has one.
#[derive(Clone, Copy, Debug, PartialEq, Eq)]
pub enum Refused {
    TableShort, // 1: the table has fewer than 12 bytes
    SizeOutsideLimits, // 2: a size is outside its limits, or the roots are more than the nodes
    TableLength, // 3: the table has not 12 + 5N bytes
    BadNode(usize), // 4: the lowest node with a bad kind or operand
    WrongParty(usize), // 5: the lowest key node with a wrong party, or with an environment key that a link reaches
    ExposedCall(usize), // 6: the lowest definition that exposes a call which is not lower
    NodeDerivations(usize), // 7: the lowest node with over 65,535 derivations
    BufferLength, // 8: a lent buffer has a wrong length
    StateNotWellFormed, // 9: the state, or the shelf, is not well formed for the table
    StepOutOfRange, // 10: no such kind of step, agent or key
    KeysPending, // 11: an act while keys are to be confirmed or propagated
    ResidualDerivations, // 12: a subterm of the residual has over 65,535 derivations
    NoSuchChoice, // 13: the agent has no such choice
    GuardFails, // 14: a guard of the choice does not hold
    ExpressionAbsent, // 15: the choice's expression is absent
    ClockAtEnd, // 16: a stigmergy write at clock 65,535
    ResidualTooLong, // 17: the choice leaves over 63 words
    KeyNotInSet, // 18: the key is not one to propagate, or to confirm
    ScheduleLength, // 19: the schedule has not 2 + 5n bytes, or n is over 8,192
    AnswersShort, // 20: fewer answer bytes than steps
    NoSuchName, // 21: the name is none, or is not held on a restore or drop
    ShelfFull, // 22: a new name, and all eight places are held
}

impl Refused {
    // Its number.
    pub fn number(self) -> u8
        ensures { result ≡ number_of (check_of self) }
    {
        match self {
            Refused::TableShort => 1,
            Refused::SizeOutsideLimits => 2,
            Refused::TableLength => 3,
            Refused::BadNode(_) => 4,
            Refused::WrongParty(_) => 5,
            Refused::ExposedCall(_) => 6,
            Refused::NodeDerivations(_) => 7,
            Refused::BufferLength => 8,
            Refused::StateNotWellFormed => 9,
            Refused::StepOutOfRange => 10,
            Refused::KeysPending => 11,
            Refused::ResidualDerivations => 12,
            Refused::NoSuchChoice => 13,
            Refused::GuardFails => 14,
            Refused::ExpressionAbsent => 15,
            Refused::ClockAtEnd => 16,
            Refused::ResidualTooLong => 17,
            Refused::KeyNotInSet => 18,
            Refused::ScheduleLength => 19,
            Refused::AnswersShort => 20,
            Refused::NoSuchName => 21,
            Refused::ShelfFull => 22,
        }
    }

    // The node or the definition at fault; 0 where it names none.
    pub fn place(self) -> usize
        ensures { result ≡ place_of (check_of self) }
    {
        match self {
            Refused::BadNode(place) => place,
            Refused::WrongParty(place) => place,
            Refused::ExposedCall(place) => place,
            Refused::NodeDerivations(place) => place,
            _ => 0,
        }
    }
}
