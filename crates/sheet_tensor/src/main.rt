// The sheet program: the tensor of a sheet, printed.

#![tactic(auto)]

use program_streams::Streams;

fn main(rt: HostRuntime) {
    program_sheet_print::run(Streams::of(&rt));
}
