// Words cleared and copied. docs/ASSURANCE.md names these two, and says what they promise.
ghost use Rattle.std.specs.Prelude.{◌≡◌, ◌++◌, ◌-◌, ◌≤◌, length, take, replicate};

// The words from a place on become 0.
pub fn clear(words: &mut [u32], from: usize)
    requires { from ≤ length words.old }
    ensures { words.new ≡ take from words.old ++ replicate (length words.old - from) 0 }
{
    words[from..].fill(0);
}

// All words become those of a slice of the same length. One by one, since `copy_from_slice` would have a caller in C
// bring memmove.
pub fn copy(from: &[u32], to: &mut [u32])
    requires { length from.now ≡ length to.old }
    ensures { to.new ≡ from.now }
{
    for i in 0..from.len() {
        to[i] = from[i];
    }
}
