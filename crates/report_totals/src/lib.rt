// The totals of a report, a state by value: how many sheets there were, how many by refusal number, and per derivative order what the
// accepted tensors hold. None of these functions is a public call.

#![tactic(auto)]

ghost use Rattle.std.specs.Prelude.{◌≡◌, true, not, [], ◌+◌, ◌/◌, ◌^◌, ◌<◌, ◌≤◌, max, length, eqb};
ghost use Rattle.std.specs.Int.Count.{ones};
ghost use Rattle.std.specs.Float.Ieee.Scale.{finite};
ghost use Rattle.rules.specs.Answers.{number_of};
ghost use Rattle.report_totals.specs.Totals.{magnitude, tensor_entries, totals_of};
ghost use Rattle.report_totals.specs.Counting.{one_if, sum, of_mask, InPlaces, Room, Tallied, Running, sheet_added, Adds};

use rules::Refusal;

// What is counted of one derivative order: its entries, those of them that are not zero, and the pattern of the largest magnitude.
#[derive(Clone, Copy)]
pub struct OrderTotals {
    pub entries: u64,
    pub nonzero: u64,
    pub largest: u64,
}

// All that is counted: sheets, sheets by the number of their refusal, of which 0 is none, and the entries by order.
#[derive(Clone, Copy)]
pub struct Totals {
    pub sheets: u64,
    pub refusals: [u64; 24],
    pub orders: [OrderTotals; 5],
}

// The report of a stream: the totals of its sheets, and whether it stops before the stream's end.
#[derive(Clone, Copy)]
pub struct Report {
    pub totals: Totals,
    pub stopped: bool,
}

// A mask as an order: along how many axes it is a derivative.
fn order_of_mask(mask: usize) -> usize
    requires { mask < 16 }
    ensures { (result ≡ ones mask) × (result < 5) }
{
    usize::count_ones(mask) as usize
}

// How many of one entry are not zero, by its magnitude.
fn one_if_not_zero(size: u64) -> u64
    ensures { result ≡ one_if (not (eqb size 0)) }
{
    if size == 0 { 0 } else { 1 }
}

// The magnitude of a finite number: its pattern with the sign cleared.
fn magnitude_of(number: f64) -> u64
    requires { finite number ≡ true }
    ensures { result ≡ magnitude number }
{
    base_numbers::pattern_of(number) % 0x8000000000000000
}

// What two masks have that lie side by side.
#[derive(Clone, Copy)]
struct TwoMasks {
    first: OrderTotals,
    second: OrderTotals,
}

// The totals of the entries of a mask, and of those of the next one: both of a place are at hand together.
fn count_masks(tensor: &[f64], axes: usize, masks: usize, mask: usize, places: usize) -> TwoMasks
    requires { InPlaces axes tensor.now × (masks ≡ 2 ^ axes) × (mask + 1 < masks) × (places ≡ length tensor.now / 2 ^ axes) }
    ensures { (result.first ≡ of_mask masks mask tensor.now places)
        × (result.second ≡ of_mask masks (mask + 1) tensor.now places) }
{
    let mut nonzero = 0;
    let mut largest = 0;
    let mut next_nonzero = 0;
    let mut next_largest = 0;
    for p in 0..places {
        let e = p * masks + mask;
        let size = magnitude_of(tensor[e]);
        let next_size = magnitude_of(tensor[e + 1]);
        nonzero += one_if_not_zero(size);
        largest = largest.max(size);
        next_nonzero += one_if_not_zero(next_size);
        next_largest = next_largest.max(next_size);
    }
    TwoMasks {
        first: OrderTotals {
            entries: places as u64,
            nonzero,
            largest,
        },
        second: OrderTotals {
            entries: places as u64,
            nonzero: next_nonzero,
            largest: next_largest,
        },
    }
}

// The totals of the entries of both.
fn together(a: OrderTotals, b: OrderTotals) -> OrderTotals
    requires { (a.entries + b.entries < 2 ^ 64) × (a.nonzero + b.nonzero < 2 ^ 64) }
    ensures { result ≡ sum a b }
{
    OrderTotals {
        entries: a.entries + b.entries,
        nonzero: a.nonzero + b.nonzero,
        largest: a.largest.max(b.largest),
    }
}

// All five orders, after the entries of one more tensor. It goes by masks, since the entries of a mask are all of one order.
fn tally(orders: [OrderTotals; 5], axes: usize, tensor: &[f64]) -> [OrderTotals; 5]
    requires { InPlaces axes tensor.now × Room orders (length tensor.now) }
    ensures { Tallied orders (tensor_entries axes tensor.now) result }
{
    let masks = grid::masks(axes);
    let places = tensor.len() >> axes;
    let mut all = orders;
    for pair in 0..masks / 2 {
        let mask = 2 * pair;
        let two = count_masks(tensor, axes, masks, mask, places);
        let k = order_of_mask(mask);
        all[k] = together(all[k], two.first);
        let next = order_of_mask(mask + 1);
        all[next] = together(all[next], two.second);
    }
    all
}

// The totals with one sheet more, the number of whose refusal is 0 for none, and with these orders.
fn with_sheet(totals: Totals, refusal: usize, orders: [OrderTotals; 5]) -> Totals
    requires { (refusal < 24) × Running totals }
    ensures { result ≡ sheet_added totals refusal orders }
{
    let mut refusals = totals.refusals;
    refusals[refusal] += 1;
    Totals {
        sheets: totals.sheets + 1,
        refusals,
        orders,
    }
}

// The totals with one sheet more that is refused, so that it has no tensor. It requires totals of no more sheets than a report has.
pub fn with_refused(totals: Totals, refusal: Refusal) -> Totals
    requires { Running totals }
    ensures { Adds totals (number_of refusal) [] result }
{
    let orders = totals.orders;
    with_sheet(totals, refusal.number(), orders)
}

// The totals with one sheet more that is accepted, and its tensor. It requires totals of no more sheets than a report has, and at most
// 4,096 numbers, finite and as many for each mask of one axis or more.
pub fn with_accepted(totals: Totals, axes: usize, tensor: &[f64]) -> Totals
    requires { InPlaces axes tensor.now × Running totals }
    ensures { Adds totals 0 (tensor_entries axes tensor.now) result }
{
    let before = totals.orders;
    let orders = tally(before, axes, tensor);
    with_sheet(totals, 0, orders)
}

// The totals of no sheets.
pub fn none() -> Totals
    ensures { result ≡ totals_of [] }
{
    Totals {
        sheets: 0,
        refusals: [0; 24],
        orders: [OrderTotals {
            entries: 0,
            nonzero: 0,
            largest: 0,
        }; 5],
    }
}
