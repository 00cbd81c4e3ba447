// The report program: what a stream of sheets holds, printed.

#![tactic(auto)]

use program_streams::Streams;

fn main(rt: HostRuntime) {
    program_report_print::run(Streams::of(&rt));
}
