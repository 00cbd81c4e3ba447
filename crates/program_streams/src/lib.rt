// Standard input and standard output, as all programs use them. Where one of them fails, one line on standard error says which.

#![tactic(auto)]

ghost use Rattle.std.specs.Prelude.{◌≤◌, length, IfOk};

use std::io::{Read, Result, Stderr, Stdin, Stdout, Write};

// The standard streams, which a program is given at its start.
#[derive(Clone, Copy)]
pub struct Streams {
    input: Stdin,
    output: Stdout,
    errors: Stderr,
}

impl Streams {
    pub fn of(rt: &HostRuntime) -> Streams {
        Streams {
            input: rt.stdin(),
            output: rt.stdout(),
            errors: rt.stderr(),
        }
    }
}

// Reads standard input to the front of a buffer, until the buffer is full or the input ends, and gives how many bytes came. Where a read
// fails, that is the Err, and a line on standard error says so. What the bytes are no contract can say.
pub fn read_input(streams: Streams, buffer: &mut [u8]) -> Result<usize>
    ensures { IfOk result (λ count. count ≤ length buffer.new) }
{
    let mut input = streams.input;
    let mut done = 0;
    // A while: a turn goes on by as many bytes as were read.
    while done < buffer.len() {
        match input.read(&mut buffer[done..]) {
            Ok(0) => return Ok(done),
            Ok(more) => done += more,
            Err(failure) => {
                write_whole(streams.errors, b"standard input could not be read\n");
                return Err(failure);
            }
        }
    }
    Ok(done)
}

// Writes a text to standard output, in one call where the system takes it whole, and says so on standard error where a write fails.
pub fn write_output(streams: Streams, text: &[u8]) {
    if write_whole(streams.output, text) {
        return;
    }
    write_whole(streams.errors, b"standard output could not be written\n");
}

// Writes all bytes, and answers whether the system took them: it stops at a write that takes nothing or fails. One that a signal
// interrupts has failed too.
fn write_whole<W: Write + Drop>(mut to: W, bytes: &[u8]) -> bool {
    let mut done = 0;
    // A while: a turn goes on by as many bytes as were taken. The library's `write_all` would try an interrupted write again.
    while done < bytes.len() {
        match to.write(&bytes[done..]) {
            Ok(0) | Err(_) => return false,
            Ok(more) => done += more,
        }
    }
    true
}
