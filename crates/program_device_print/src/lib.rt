// The device's program: read, call, write. What is printed is decided by `device_text` alone.

#![tactic(auto)]

use program_streams::{Streams, read_input, write_output};

// Prints the text of a curve, for which the array has room.
pub fn print_text(streams: Streams, curve: &[u8]) {
    let mut text = [0u8; 456967];
    let length = program_device_text::device_text(curve, &mut text).unwrap();
    write_output(streams, &text[0..length]);
}

// Prints the text of the curve on standard input, of which the first 4,081 bytes are looked at and no more: one byte more than a curve
// can have. Where the input cannot be read, nothing is printed.
pub fn run(streams: Streams) {
    let mut buffer = [0u8; 4081];
    if let Ok(length) = read_input(streams, &mut buffer) {
        print_text(streams, &buffer[0..length]);
    }
}
