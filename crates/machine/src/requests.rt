// A step as it is asked for, and its kind: refusal 10.
ghost use Rattle.std.specs.Prelude.{◌≡◌};
ghost use Rattle.table.specs.Fleets.{table_in};
ghost use Rattle.machine.specs.Requests.{Names, request, InRange};

use table::{Fleet, Refused};

// The kinds of steps.
#[derive(Clone, Copy)]
pub enum Kind {
    Act = 0,
    Propagate = 1,
    Confirm = 2,
}

impl TryFrom<u8> for Kind {
    type Error = Refused;

    ghost try_from_gives = { Names };

    fn try_from(byte: u8) -> Result<Kind, Refused> {
        match byte {
            0 => Ok(Kind::Act),
            1 => Ok(Kind::Propagate),
            2 => Ok(Kind::Confirm),
            _ => Err(Refused::StepOutOfRange),
        }
    }
}

// A kind of step, which may be any byte before refusal 10, the agent that steps, and a choice of it or a key.
#[derive(Clone, Copy)]
pub struct Request {
    pub kind: u8,
    pub agent: usize,
    pub number: usize,
}

impl Request {
    pub fn new(kind: u8, agent: u16, number: u16) -> Request
        ensures { result ≡ request kind agent number }
    {
        Request {
            kind,
            agent: usize::from(agent),
            number: usize::from(number),
        }
    }

    // Its kind; 10 where the kind, the agent or the key is out of range.
    pub fn kind_in(self, fleet: &Fleet) -> Result<Kind, Refused>
        ensures { InRange (table_in fleet.now) self result }
    {
        let kind = Kind::try_from(self.kind)?;
        let in_range = match kind {
            Kind::Act => true,
            Kind::Propagate | Kind::Confirm => self.number < fleet.sizes.stigmergy,
        };
        if in_range & (self.agent < fleet.sizes.agents) {
            Ok(kind)
        } else {
            Err(Refused::StepOutOfRange)
        }
    }
}
