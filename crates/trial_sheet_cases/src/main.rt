// Reads a list of sheets, each after its length in two bytes, the higher first, and prints the text of each. The list: every cut of
// the example sheet, from no bytes to all 51; each fault of the reader, 12 1 2 13 3 11 14, and of the build, 7 8 9 10; sheets with
// two faults, of which the first in reading order counts; and sheets of one to four axes with every kind of end. Then edition 2:
// every cut of the example; modes that there are not, 22, alone and beside other faults; and sheets in every mode.

#![tactic(auto)]

use program_streams::{Streams, read_input};

// A while: a turn goes on by as many bytes as a sheet has.
fn print_texts(streams: Streams, list: &[u8]) {
    let mut rest = list;
    while let Some((length, behind)) = rest.split_first_chunk::<2>() {
        let length = usize::from(u16::from_be_bytes(*length));
        let Some((sheet, next)) = behind.split_at_checked(length) else {
            return;
        };
        program_sheet_print::print_text(streams, sheet);
        rest = next;
    }
}

fn main(rt: HostRuntime) {
    let streams = Streams::of(&rt);
    let mut buffer = [0u8; 65536];
    if let Ok(length) = read_input(streams, &mut buffer) {
        print_texts(streams, &buffer[..length]);
    }
}
