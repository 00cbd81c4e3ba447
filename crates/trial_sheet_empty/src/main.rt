// The sheet program on empty input.

#![tactic(auto)]

use program_streams::Streams;

fn main(rt: HostRuntime) {
    program_sheet_print::run(Streams::of(&rt));
}
