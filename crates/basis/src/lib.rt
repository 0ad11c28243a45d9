// Little-endian reading of bytes, and sets of numbers below 32 in a word: keys, agents, bits of marks.
#![tactic(auto)]

pub mod kinds; // kinds.rt: the node kinds by name
mod node_kinds; // node_kinds.rt: the node kinds as an enum
pub mod words; // words.rt: words cleared and copied

ghost use Rattle.std.specs.Prelude.{◌≡◌, true, false, ℕ, ◌+◌, ◌^◌, ◌<◌, length};
ghost use Rattle.basis.specs.Bytes.{u32_at};
ghost use Rattle.basis.specs.Read.{U16};
ghost use Rattle.basis.specs.KeySets.{has as has_key, plus as plus_key, plus_if, minus as minus_key};

pub use node_kinds::{NodeKind, UnknownKind};

// The 16-bit number at a place of a byte slice, low byte first.
pub fn u16_at(bytes: &[u8], at: usize) -> usize
    requires { at + 1 < length bytes.now }
    ensures { U16 bytes.now at result }
{
    usize::from(bytes[at]) + 256 * usize::from(bytes[at + 1])
}

// The 32-bit number at a place, low half first.
pub fn u32_at(bytes: &[u8], at: usize) -> u32
    requires { at + 3 < length bytes.now }
    ensures { result ≡ u32_at bytes.now at }
{
    (u16_at(bytes, at) + 65536 * u16_at(bytes, at + 2)) as u32
}

// The word of the set of one key.
fn power(key: usize) -> u32
    requires { key < 32 }
    ensures { result ≡ 2 ^ key }
{
    1 << key
}

// Whether a key is in a set.
#[tactic(auto, using(std::proofs::lemmas::Nat::Bits::shr_and_one), unfolding(crate::specs::KeySets::has))]
pub fn has(keys: u32, key: usize) -> bool
    requires { key < 32 }
    ensures { result ≡ has_key keys key }
{
    keys >> key & 1 == 1
}

// The set with a key.
pub fn plus(keys: u32, key: usize) -> u32
    requires { key < 32 }
    ensures { result ≡ plus_key keys key }
{
    keys | power(key)
}

// The set with a key, if asked to.
#[tactic(auto, unfolding(crate::specs::KeySets::plus_if))]
pub fn plus_if(keys: u32, key: usize, on: bool) -> u32
    requires { key < 32 }
    ensures { result ≡ plus_if keys key on }
{
    if on { plus(keys, key) } else { keys }
}

// The set without a key.
pub fn minus(keys: u32, key: usize) -> u32
    requires { key < 32 }
    ensures { result ≡ minus_key keys key }
{
    keys & !power(key)
}

// The lowest key of a set that has one.
pub fn lowest(keys: u32) -> usize
    requires { 0 < keys }
    ensures { (result < 32) × (has_key keys result ≡ true) × ((k : ℕ) → k < result → has_key keys k ≡ false) }
{
    keys.trailing_zeros() as usize
}
