// Curves of the device walked by the cursor, from its start to the refusal that ends the walk: a line for each value, and one for that.

#![tactic(auto)]

use device_cursor::Cursor;
use std::io::{Stdout, Write};
use trial_lines::{print, print_count};

fn print_value(out: Stdout, value: i32) {
    let mut to = out;
    let _ = writeln!(to, "{value}");
}

fn print_refused(out: Stdout, refusal: usize) {
    print(out, b"refused");
    print_count(out, refusal);
    print(out, b"\n");
}

// One call after the other, until one is refused.
fn walk(out: Stdout, curve: &[u8]) {
    let mut cursor = Cursor::start();
    'calls: loop {
        match cursor.next(curve) {
            Ok((value, moved)) => {
                print_value(out, value);
                cursor = moved;
            }
            Err(refusal) => {
                print_refused(out, refusal.number());
                return;
            }
        }
    }
}

// A cell from 0 to 1 and one from 0 to −1, both level at their ends: in the middle of each is a half.
fn halves(out: Stdout) {
    print(out, b"halves\n");
    walk(
        out,
        b"\x00\x00\x00\x00\x01\x00\x00\x00\x00\x00\x00\x00\x00\x00\x00\x00\x00\x00\x00\x00\xFF\xFF\xFF\xFF\x00\x00\x00\x00\x00\x00\x00\x00",
    );
}

// A cell from 1 to −2, with the slopes 256 and −131,072.
fn steep(out: Stdout) {
    print(out, b"steep\n");
    walk(
        out,
        b"\x01\x00\x00\x00\xFE\xFF\xFF\xFF\x00\x01\x00\x00\x00\x00\xFE\xFF",
    );
}

// 19: that cell, and behind it one that begins at 32,768. The curve is judged whole, so no value comes.
fn out_of_range(out: Stdout) {
    print(out, b"out of range\n");
    walk(
        out,
        b"\x01\x00\x00\x00\xFE\xFF\xFF\xFF\x00\x01\x00\x00\x00\x00\xFE\xFF\x00\x80\x00\x00\x00\x00\x00\x00\x00\x00\x00\x00\x00\x00\x00\x00",
    );
}

// 20: the same without its last byte.
fn no_whole_cells(out: Stdout) {
    print(out, b"no whole cells\n");
    walk(
        out,
        b"\x01\x00\x00\x00\xFE\xFF\xFF\xFF\x00\x01\x00\x00\x00\x00\xFE\xFF\x00\x80\x00\x00\x00\x00\x00\x00\x00\x00\x00\x00\x00\x00\x00",
    );
}

fn main(rt: HostRuntime) {
    let out = rt.stdout();
    halves(out);
    steep(out);
    out_of_range(out);
    no_whole_cells(out);
}
