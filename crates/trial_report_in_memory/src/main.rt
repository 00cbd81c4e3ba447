// The report of a stream in memory, by the public call: the stream of `trial_report_of_refusals`, which the report program reads.

#![tactic(auto)]

use program_streams::{Streams, read_input};

fn main(rt: HostRuntime) {
    let streams = Streams::of(&rt);
    let mut buffer = [0u8; 65536];
    if let Ok(length) = read_input(streams, &mut buffer) {
        let report = report::report_of_bytes(&buffer[..length]);
        program_report_print::print_text(streams, report);
    }
}
