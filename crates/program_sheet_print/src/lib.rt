// The sheet program: read, call, write. What is printed is decided by `sheet_text` alone.

#![tactic(auto)]

use program_streams::{Streams, read_input, write_output};

// Prints the text of a sheet.
pub fn print_text(streams: Streams, sheet: &[u8]) {
    let mut knots = [0.0; 1024];
    let mut samples = [0.0; 1024];
    let mut tensor = [0.0; 4096];
    let mut scratch = [0.0; 6144];
    let mut text = [0u8; 69644];
    let written = program_sheet_text::sheet_text(
        sheet,
        &mut knots,
        &mut samples,
        &mut tensor,
        &mut scratch,
        &mut text,
    );
    if let Ok(length) = written {
        write_output(streams, &text[0..length]);
    }
}

// Prints the text of the sheet on standard input, of which the first 65,536 bytes are looked at and no more. Where the input cannot be
// read, nothing is printed.
pub fn run(streams: Streams) {
    let mut buffer = [0u8; 65536];
    if let Ok(length) = read_input(streams, &mut buffer) {
        print_text(streams, &buffer[0..length]);
    }
}
