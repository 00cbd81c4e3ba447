// The working tensor in the scratch: what is stored there before the passes, and what is done after them. None of these is a public call.
ghost use Rattle.std.specs.Prelude.{◌+◌, ◌<◌, ◌≤◌, length};
ghost use Rattle.rules.specs.Numbers.{at};
ghost use Rattle.rules.specs.Answers.{refusal_of};
ghost use Rattle.grid_scratch.specs.Layout.{tensor_begin};
ghost use Rattle.tensor_lane.specs.LaneInScratch.{Lies, Stored};
ghost use Rattle.tensor.specs.Working.{Loaded, Finished};

use grid_scratch::TENSOR;
use rules::Refusal;

// The samples go to mask 0.
pub fn store_samples(w: &mut [f64], samples: &[f64], masks: usize)
    requires { Lies w.old (length samples.now) tensor_begin masks × (1 ≤ masks) }
    ensures { Stored w.old w.new (at samples.now) (length samples.now) tensor_begin masks }
{
    for k in 0..samples.len() {
        w[TENSOR + k * masks] = samples[k];
    }
}

// The tensor is copied to the scratch, and then one of its numbers stored there.
pub fn load(w: &mut [f64], tensor: &[f64], spot: usize, number: f64)
    requires { (tensor_begin + length tensor.now ≤ length w.old) × (spot < length tensor.now) }
    ensures { Loaded w.old w.new tensor.now spot number }
{
    let end = TENSOR + tensor.len();
    base_numbers::copy(&mut w[TENSOR..end], tensor);
    w[TENSOR + spot] = number;
}

// What came out is looked at, and stored when all of it is finite; then the scratch is cleared. Refuses 10 with the tensor as it was.
pub fn finish(tensor: &mut [f64], w: &mut [f64]) -> Result<(), Refusal>
    requires { tensor_begin + length tensor.old ≤ length w.old }
    ensures { Finished tensor.old w.old (refusal_of result) tensor.new w.new }
{
    let end = TENSOR + tensor.len();
    if base_numbers::any_of_many_not_finite(&w[TENSOR..end]) {
        base_numbers::clear(w);
        return Err(Refusal::Outcome);
    }
    base_numbers::copy(tensor, &w[TENSOR..end]);
    base_numbers::clear(w);
    Ok(())
}
