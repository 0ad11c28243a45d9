// Values, the operations and comparisons on them, and what a comparison comes to.
#![tactic(auto)]

ghost use Rattle.std.specs.Prelude.{◌≡◌, false, option_map};
ghost use Rattle.std.specs.Int.{w32, cast_unsigned};
ghost use Rattle.value.specs.Values.{is_zero, floor_rem, arithmetic, operate as operate_of};
ghost use Rattle.value.specs.Truths.{test_of, compare_values as compare_of};

use basis::NodeKind;

// A value: none where it is absent, or a signed 32-bit number as its two's complement word.
pub type Value = Option<u32>;

// What a guard comes to: whether it is well defined, and whether it holds. `holds` may be true where it is not well
// defined, as an `or` of such a guard and one that holds, so that this is no Option<bool>.
#[derive(Clone, Copy)]
pub struct Truth {
    pub defined: bool,
    pub holds: bool,
}

impl Truth {
    const UNDEFINED: Truth = Truth {
        defined: false,
        holds: false,
    };
}

// The floored remainder, by a divisor that is not 0: 0, or of the divisor's sign.
fn floored_remainder(x: i32, y: i32) -> i32
    requires { is_zero y ≡ false }
    ensures { result ≡ floor_rem x y }
{
    let rest = x.wrapping_rem(y);
    if y < 0 {
        if 0 < rest { rest + y } else { rest }
    } else {
        if rest < 0 { rest + y } else { rest }
    }
}

// An operation on two numbers: absent where its result does not fit 32 bits.
fn compute(kind: u8, x: i32, y: i32) -> Option<i32>
    ensures { option_map (cast_unsigned w32) result ≡ arithmetic kind x y }
{
    match NodeKind::try_from(kind) {
        Ok(NodeKind::Plus) => x.checked_add(y),
        Ok(NodeKind::Minus) => x.checked_sub(y),
        Ok(NodeKind::Times) => x.checked_mul(y),
        Ok(NodeKind::Divide) => x.checked_div(y),
        Ok(NodeKind::Remainder) if y != 0 => Some(floored_remainder(x, y)),
        _ => None,
    }
}

// The same on two values. By a byte and no NodeKind here and below, since any byte has an answer.
pub fn operate(kind: u8, a: Value, b: Value) -> Value
    ensures { result ≡ operate_of kind a b }
{
    let result = compute(kind, a?.cast_signed(), b?.cast_signed())?;
    Some(result.cast_unsigned())
}

// A comparison of two numbers, given as their words.
fn test(kind: u8, a: u32, b: u32) -> bool
    ensures { result ≡ test_of kind a b }
{
    match NodeKind::try_from(kind) {
        Ok(NodeKind::Equal) => a == b,
        Ok(NodeKind::Less) => a.cast_signed() < b.cast_signed(),
        Ok(NodeKind::Greater) => b.cast_signed() < a.cast_signed(),
        _ => false,
    }
}

// The same on two values.
pub fn compare_values(kind: u8, a: Value, b: Value) -> Truth
    ensures { result ≡ compare_of kind a b }
{
    let (Some(x), Some(y)) = (a, b) else {
        return Truth::UNDEFINED;
    };
    Truth {
        defined: true,
        holds: test(kind, x, y),
    }
}
