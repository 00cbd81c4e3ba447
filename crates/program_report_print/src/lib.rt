// The report program: read a piece, feed, and at the end write. What is printed is decided by `report` and `report_text` alone.

#![tactic(auto)]

ghost use Rattle.std.specs.Prelude.{◌≡◌, ◌-◌, ◌≤◌, length, take, drop, MatchResult};
ghost use Rattle.program_report_print.specs.AroundReads.{said, Lent, Refilled, Told};

use program_streams::{Streams, read_input, write_output};
use report::{Progress, feed};
use report_totals::{Report, none};
use std::io::Result;

// The report of all that was read; how many bytes all reads brought, and how many of them stand in the buffer's front in the end.
#[derive(Clone, Copy)]
pub struct Outcome {
    pub report: Report,
    pub brought: usize,
    pub filled: usize,
}

// Reads behind the bytes that were kept, until the buffer is full or the input ends, and gives how many bytes came. The kept bytes stay,
// where a read fails too.
fn refill(streams: Streams, buffer: &mut [u8], kept: usize) -> Result<usize>
    requires { kept ≤ length buffer.old }
    ensures { MatchResult result (Refilled buffer.old kept buffer.new) (λ _. take kept buffer.new ≡ take kept buffer.old) }
{
    read_input(streams, &mut buffer[kept..])
}

// Drops the first `from` bytes: those behind them come to stand at the front.
fn keep(buffer: &mut [u8], from: usize)
    requires { from ≤ length buffer.old }
    ensures { take (length buffer.old - from) buffer.new ≡ drop from buffer.old }
{
    buffer.copy_within(from.., 0);
}

// What is said of where a report has come to at last, after so many bytes.
fn told(last: Progress, brought: usize, filled: usize) -> Outcome
    ensures { result ≡ said last brought filled }
{
    let totals = last.totals;
    Outcome {
        report: Report {
            totals,
            stopped: last.stopped,
        },
        brought,
        filled,
    }
}

// The report of standard input, piece by piece, the first of which the first read has brought to the buffer's front: each is fed, the
// buffer rid of what was taken and filled again, until the input or the report ends. A read that fails leaves no report.
fn report_through(streams: Streams, buffer: &mut [u8], first: usize) -> Result<Outcome>
    requires { Lent buffer.old first }
    ensures { Told buffer.old first buffer.new result }
{
    let mut sum = none();
    let mut filled = first;
    let mut brought = first;
    // A loop: it ends where the stream or the report does.
    loop {
        if filled < buffer.len() {
            return Ok(told(feed(sum, &buffer[0..filled], 1), brought, filled));
        }
        let next = feed(sum, buffer, 65536);
        let so_far = next.totals;
        let stopped = next.stopped;
        let taken = next.taken;
        if stopped {
            return Ok(told(next, brought, filled));
        }
        keep(buffer, taken);
        let kept = buffer.len() - taken;
        let came = refill(streams, buffer, kept)?;
        sum = so_far;
        filled = kept + came;
        brought += came;
    }
}

// Prints the text of a report.
pub fn print_text(streams: Streams, report: Report) {
    let mut text = [0u8; 1137];
    let written = program_report_text::report_text(report, &mut text);
    if let Ok(length) = written {
        write_output(streams, &text[0..length]);
    }
}

// Prints the report of the stream of sheets on standard input, of any length. Where the input cannot be read, nothing is printed.
pub fn run(streams: Streams) {
    let mut buffer = [0u8; 524288];
    let Ok(first) = read_input(streams, &mut buffer) else {
        return;
    };
    if let Ok(outcome) = report_through(streams, &mut buffer, first) {
        let report = outcome.report;
        print_text(streams, report);
    }
}
