// The device's program: the numbers of a curve, printed.

#![tactic(auto)]

use program_streams::Streams;

fn main(rt: HostRuntime) {
    program_device_print::run(Streams::of(&rt));
}
