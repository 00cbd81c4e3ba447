// The sheet program on the largest accepted sheet with a zero byte behind it, which a buffer of 10,309 bytes would not hold.

#![tactic(auto)]

use program_streams::Streams;

fn main(rt: HostRuntime) {
    program_sheet_print::run(Streams::of(&rt));
}
