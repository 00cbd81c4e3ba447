// Replays the oracle's fixed list of cases from standard input: a line for each case, its number and `same` or `differs`, and a last line
// with the counts.

#![tactic(auto)]

ghost use Rattle.std.specs.Prelude.{◌≤◌, length};

use std::io::{Read, Stdin, Stdout, Write};
use trial_replay_items::words::{held, word};

mod cases; // cases.rt: a case, replayed

use cases::case_at;

fn print_case(out: Stdout, number: usize, same: bool) {
    let mut to = out;
    let answer = if same { "same" } else { "differs" };
    let _ = writeln!(to, "{number} {answer}");
}

fn print_counts(out: Stdout, cases: usize, same: usize) {
    let mut to = out;
    let _ = writeln!(to, "{cases} cases, {same} the same");
}

// Every case of the list, of which at most 4,096 are looked at.
fn replay(out: Stdout, list: &[u8]) {
    let cases = held(word(list, 0), 4096);
    let mut place = 1;
    let mut same: usize = 0;
    for i in 0..cases {
        let replayed = case_at(list, place);
        print_case(out, i + 1, replayed.same);
        if replayed.same {
            same += 1;
        }
        place = replayed.next;
    }
    print_counts(out, cases, same);
}

// Reads until the list is full, the input ends or a read fails, and answers how many bytes came. A while: a turn goes on by as many bytes
// as were read.
fn read_list(from: Stdin, list: &mut [u8]) -> usize
    ensures { result ≤ length list.new }
{
    let mut from = from;
    let mut done = 0;
    while done < list.len() {
        match from.read(&mut list[done..]) {
            Ok(0) | Err(_) => return done,
            Ok(more) => done += more,
        }
    }
    done
}

fn main(rt: HostRuntime) {
    let mut list = [0u8; 655360];
    let n = read_list(rt.stdin(), &mut list);
    replay(rt.stdout(), &list[..n]);
}
