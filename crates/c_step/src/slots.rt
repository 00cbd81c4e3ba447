// The slots of an exact index and of a location: written where all of them have their lengths, and else left as they were.
ghost use Rattle.std.specs.Prelude.{◌≡◌, [], ◌∷◌, length};
ghost use Rattle.c_step.specs.StepExports.{in_pair, exact_numbers, location_slots_refused, LocationStored};

use grid_checks::lengths;
use rules::AxisLocation;

// Two numbers go to a slot. Not a public call: its length is required.
fn store_two(slot: &mut [usize], first: usize, second: usize)
    requires { length slot.old ≡ 2 }
    ensures { slot.new ≡ first ∷ second ∷ [] }
{
    slot[0] = first;
    slot[1] = second;
}

// An exact index goes to its slot.
pub fn store_exact(slot: &mut [usize], index: Option<usize>)
    ensures { slot.new ≡ in_pair slot.old (exact_numbers index) }
{
    if lengths::length_refused(slot.len(), 2) {
        return;
    }
    match index {
        Some(found) => store_two(slot, 1, found),
        None => store_two(slot, 0, 0),
    }
}

// Whether a slot of a location is of another length.
pub fn location_slots_refused(location: &[usize], fraction: &[f64]) -> bool
    ensures { result ≡ location_slots_refused location.now fraction.now }
{
    lengths::length_refused(location.len(), 2) || lengths::length_refused(fraction.len(), 1)
}

// A location goes to its slots.
pub fn store_location(location: &mut [usize], fraction: &mut [f64], found: AxisLocation)
    ensures { LocationStored location.old fraction.old found location.new fraction.new }
{
    if location_slots_refused(location, fraction) {
        return;
    }
    match found {
        AxisLocation::Exact(index) => {
            store_two(location, 0, index);
            fraction[0] = 0.0;
        }
        AxisLocation::Between { lower, frac } => {
            store_two(location, 1, lower);
            fraction[0] = frac;
        }
    }
}
