// The slots of what a look at a tensor found: written where both have their lengths, and else left as they were.
ghost use Rattle.std.specs.Prelude.{◌≡◌, length};
ghost use Rattle.tensor_verify.specs.Verify.{verify_told};
ghost use Rattle.c_verify.specs.VerifyExports.{verify_slots_refused, FoundStored};

use grid_checks::lengths;
use rules::Refusal;
use tensor_verify::Verdict;

// Whether the slot of the place is not four numbers, or that of what else was found not three.
pub fn slots_refused(place: &[usize], found: &[usize]) -> bool
    ensures { result ≡ verify_slots_refused place.now found.now }
{
    lengths::length_refused(place.len(), 4) || lengths::length_refused(found.len(), 3)
}

// A place and three numbers go to their slots. Not a public call: the lengths of both are required.
fn store_both(place: &mut [usize], found: &mut [usize], first: [usize; 4], numbers: [usize; 3])
    requires { (length place.old ≡ 4) × (length found.old ≡ 3) }
    ensures { (place.new ≡ first) × (found.new ≡ numbers) }
{
    place.copy_from_slice(&first);
    found.copy_from_slice(&numbers);
}

// The place of the first number that differs goes to its slot; whether the tensor is whole, the mask of that number and how many differ go
// to theirs.
pub fn store_found(place: &mut [usize], found: &mut [usize], verdict: Result<Verdict, Refusal>)
    ensures { FoundStored place.old found.old (verify_told verdict) place.new found.new }
{
    if slots_refused(place, found) {
        return;
    }
    match verdict {
        Ok(Verdict::Whole) => store_both(place, found, [0; 4], [1, 0, 0]),
        Ok(
            Verdict::Differs {
                place: first,
                mask,
                differing,
            },
        ) => store_both(place, found, first, [0, mask, differing]),
        Err(_) => store_both(place, found, [0; 4], [0; 3]),
    }
}
