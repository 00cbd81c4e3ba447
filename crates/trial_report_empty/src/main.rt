// The report program on no bytes.

#![tactic(auto)]

use program_streams::Streams;

fn main(rt: HostRuntime) {
    program_report_print::run(Streams::of(&rt));
}
