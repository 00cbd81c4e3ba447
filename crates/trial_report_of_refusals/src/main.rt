// The report program on sheets that are refused, among accepted ones, up to one in which it stops.

#![tactic(auto)]

use program_streams::Streams;

fn main(rt: HostRuntime) {
    program_report_print::run(Streams::of(&rt));
}
