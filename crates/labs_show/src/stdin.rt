// Standard input, read to its end.
ghost use Rattle.std.specs.Prelude.{◌≤◌, IfOk, length};

use std::io;
use std::io::Read;
use std::rt::Stdin;

// Reads until the buffer is full or the input ends; answers how many bytes stand at the start of the buffer. A read
// that fails is not the end, whatever its reason.
pub fn read_input(input: &mut Stdin, buffer: &mut [u8]) -> io::Result<usize>
    ensures { IfOk result (λ size. size ≤ length buffer.new) }
{
    let mut size = 0;
    while size < buffer.len() {
        match input.read(&mut buffer[size..])? {
            0 => break,
            more => size += more,
        }
    }
    Ok(size)
}
