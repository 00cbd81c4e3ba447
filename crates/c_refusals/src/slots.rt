// The slots of an answer: written where all of them have their lengths, and else left as they were.
ghost use Rattle.std.specs.Prelude.{◌≡◌, length};
ghost use Rattle.c_refusals.specs.Slots.{in_slot, QueryStored, EvenStored};

use crate::own;

// An answer of one number goes to its slot.
pub fn store_one<T: Copy>(slot: &mut [T], answer: T)
    ensures { slot.new ≡ in_slot slot.old answer }
{
    if slot.len() == 1 {
        slot[0] = answer;
    }
}

// Four labels, or four indices, go to their slice. Not a public call: its length is required.
pub fn store_labels(labels: &mut [usize], found: [usize; 4])
    requires { length labels.old ≡ 4 }
    ensures { labels.new ≡ found }
{
    labels.copy_from_slice(&found);
}

// The value and the labels of a query go to their slots.
pub fn store_query(value: &mut [f64], labels: &mut [usize], number: f64, found: [usize; 4])
    ensures { QueryStored value.old labels.old number found value.new labels.new }
{
    if own::query_slots_refused(value, labels) {
        return;
    }
    value[0] = number;
    store_labels(labels, found);
}

// The value and the labels of a query of even axes, and the axis and the interval that it tells, go to their slots.
pub fn store_even_query(
    value: &mut [f64],
    labels: &mut [usize],
    uneven: &mut [usize],
    number: f64,
    found: [usize; 4],
    axis: usize,
    interval: usize,
)
    ensures { EvenStored value.old labels.old uneven.old number found axis interval value.new
        labels.new uneven.new }
{
    if own::query_slots_refused(value, labels) {
        return;
    }
    if uneven.len() != 2 {
        return;
    }
    uneven[0] = axis;
    uneven[1] = interval;
    store_query(value, labels, number, found);
}
