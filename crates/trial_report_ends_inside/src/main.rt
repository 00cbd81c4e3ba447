// The report program on a sheet and the beginning of another.

#![tactic(auto)]

use program_streams::Streams;

fn main(rt: HostRuntime) {
    program_report_print::run(Streams::of(&rt));
}
