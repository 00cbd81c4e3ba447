// All that the report program prints of a report, written to a text that the caller lends.

#![tactic(auto)]

ghost use Rattle.std.specs.Prelude.{◌≡◌, ◌+◌, ◌<◌, ◌≤◌, length};
ghost use Rattle.base_text.specs.PutBytes.{Put};
ghost use Rattle.program_report_text.specs.ReportText.{
  word_number,
  occurred_line,
  order_counts,
  order_line,
  refusal_lines,
  order_lines,
  last_line,
  sheets_lines,
  report_text,
  report_length,
  report_text_told,
  ReportTextPromise,
};

use base_text::{put_byte, put_decimal, put_hex_digits, put_word, put_word_line};
use report_totals::{OrderTotals, Report, Totals};
use rules::Refusal;

// A word and a number after it. This and all up to `put_report` are no public calls: each requires that there is room, and what is told a
// refusal's number or an order requires that there is such a one.
fn put_word_number(word: &[u8], number: u64, text: &mut [u8], at: usize) -> usize
    requires { at + length word.now + 20 ≤ length text.old }
    ensures { Put (word_number word.now number) text.old at text.new result }
{
    let word_end = put_word(word, text, at);
    put_decimal(number, text, word_end)
}

// The line of a refusal's number that occurred so often, if it occurred.
fn put_occurred(number: usize, count: u64, text: &mut [u8], at: usize) -> usize
    requires { (number < 24) × (at + 32 ≤ length text.old) }
    ensures { Put (occurred_line number count) text.old at text.new result }
{
    if count == 0 {
        return at;
    }
    let number_end = put_word_number(b"refused ", number as u64, text, at);
    put_word_line(b" ", count, text, number_end)
}

// The lines of the refusals that occurred.
fn put_refusals(refusals: [u64; 24], text: &mut [u8], at: usize) -> usize
    requires { at + 736 ≤ length text.old }
    ensures { Put (refusal_lines refusals) text.old at text.new result }
{
    let mut end = at;
    for number in 1..24 {
        end = put_occurred(number, refusals[number], text, end);
    }
    end
}

// The front of an order's line: the order and its two counts.
fn put_counts(k: usize, order: OrderTotals, text: &mut [u8], at: usize) -> usize
    requires { (k < 5) × (at + 49 ≤ length text.old) }
    ensures { Put (order_counts k order) text.old at text.new result }
{
    let order_end = put_word_number(b"order ", k as u64, text, at);
    let entries_end = put_word_number(b" ", order.entries, text, order_end);
    put_word_number(b" ", order.nonzero, text, entries_end)
}

// The line of an order.
fn put_order(k: usize, order: OrderTotals, text: &mut [u8], at: usize) -> usize
    requires { (k < 5) × (at + 67 ≤ length text.old) }
    ensures { Put (order_line k order) text.old at text.new result }
{
    let counts_end = put_counts(k, order, text, at);
    let space_end = put_byte(32, text, counts_end);
    let digits_end = put_hex_digits(16, order.largest, text, space_end);
    put_byte(10, text, digits_end)
}

// The lines of the five orders.
fn put_orders(orders: [OrderTotals; 5], text: &mut [u8], at: usize) -> usize
    requires { at + 335 ≤ length text.old }
    ensures { Put (order_lines orders) text.old at text.new result }
{
    let mut end = at;
    for k in 0..5 {
        end = put_order(k, orders[k], text, end);
    }
    end
}

// How the report ends.
fn put_last(stopped: bool, text: &mut [u8], at: usize) -> usize
    requires { at + 8 ≤ length text.old }
    ensures { Put (last_line stopped) text.old at text.new result }
{
    if stopped {
        return put_word(b"stopped\n", text, at);
    }
    put_word(b"end\n", text, at)
}

// The counts of sheets: how many, how many accepted, how many refused by which number.
fn put_sheets(totals: Totals, text: &mut [u8]) -> usize
    requires { report_length ≤ length text.old }
    ensures { Put (sheets_lines totals) text.old 0 text.new result }
{
    let refusals = totals.refusals;
    let sheets_end = put_word_line(b"sheets ", totals.sheets, text, 0);
    let accepted_end = put_word_line(b"accepted ", refusals[0], text, sheets_end);
    put_refusals(refusals, text, accepted_end)
}

// All of a report.
fn put_report(report: Report, text: &mut [u8]) -> usize
    requires { report_length ≤ length text.old }
    ensures { Put (report_text report) text.old 0 text.new result }
{
    let totals = report.totals;
    let orders = totals.orders;
    let sheets_end = put_sheets(totals, text);
    let orders_end = put_orders(orders, text, sheets_end);
    put_last(report.stopped, text, orders_end)
}

// PUBLIC. Writes all that the report program prints of a report to the front of the text, and gives how many bytes that is: the lines
// of the sheets, of the accepted ones, of the refusals that occurred, of the five orders, and the last line, `end` or `stopped`. It
// refuses a text shorter than 1,137 bytes by 15; then nothing is written. The report may be any.
pub fn report_text(report: Report, text: &mut [u8]) -> Result<usize, Refusal>
    ensures { ReportTextPromise report text.old (report_text_told result) text.new }
{
    if text.len() < 1137 {
        return Err(Refusal::Buffer);
    }
    Ok(put_report(report, text))
}
