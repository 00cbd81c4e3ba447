// The sheet program on a sheet of 10,309 bytes, the most that an accepted one has: edition 2, 4 by 256 points, every end with a value.

#![tactic(auto)]

use program_streams::Streams;

fn main(rt: HostRuntime) {
    program_sheet_print::run(Streams::of(&rt));
}
