// A schedule's bytes and its steps: refusal 19.
ghost use Rattle.machine.specs.Whole.{Whole};

use crate::requests::Request;
use basis::u16_at;
use table::Refused;

// Steps that a schedule has at most.
const STEPS: usize = 8192;

// The bytes of a schedule, and how many steps it has.
#[derive(Clone, Copy)]
pub struct Schedule<'a> {
    pub bytes: &'a [u8],
    pub steps: usize,
    pub ghost whole: { Whole bytes.now steps },
}

impl<'a> TryFrom<&'a [u8]> for Schedule<'a> {
    ghost use Rattle.machine.specs.Running.{Measures};

    type Error = Refused;

    ghost try_from_gives = { λ bytes r. Measures bytes.now r };

    fn try_from(bytes: &'a [u8]) -> Result<Schedule<'a>, Refused> {
        if bytes.len() < 2 {
            return Err(Refused::ScheduleLength);
        }
        let steps = u16_at(bytes, 0);
        if (bytes.len() != 2 + 5 * steps) | (STEPS < steps) {
            return Err(Refused::ScheduleLength);
        }
        Ok(Schedule { bytes, steps })
    }
}

impl<'a> Schedule<'a> {
    ghost use Rattle.std.specs.Prelude.{◌≡◌, ◌<◌};
    ghost use Rattle.machine.specs.Running.{request_in};

    // Step i.
    pub fn request_at(&self, i: usize) -> Request
        requires { i < self.now.steps }
        ensures { result ≡ request_in self.now.bytes.now i }
    {
        let at = 2 + self.steps + 4 * i;
        Request {
            kind: self.bytes[2 + i],
            agent: u16_at(self.bytes, at),
            number: u16_at(self.bytes, at + 2),
        }
    }
}
