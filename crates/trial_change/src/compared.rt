// A change, beside a fresh build from the samples that stand then.
use rules::Axis;
use std::io::Stdout;
use trial_lines::{BEFORE, print, print_scratch, same};
use trial_tensor_lines::{print_counts, print_lanes};

// A changed sample: its place, where it stands among the samples, its new number.
#[derive(Clone, Copy)]
pub struct ChangedSample {
    pub place: [usize; 4],
    pub number: usize,
    pub sample: f64,
}

// A change, with whether the tensor then has the bits of a fresh build from the samples now standing.
pub fn print_change(
    out: Stdout,
    name: &[u8],
    axes: usize,
    all: [Axis; 4],
    knots: &[f64],
    samples: &mut [f64],
    tensor: &mut [f64],
    change: ChangedSample,
) {
    let mut scratch = [BEFORE; 2500];
    let given = tensor::change(
        axes,
        all,
        knots,
        tensor,
        &mut scratch,
        change.place,
        change.sample,
    );
    print(out, name);
    print_counts(out, &change.place);
    print_lanes(out, b"", given);
    if given.is_ok() {
        stand(samples, change.number, change.sample);
    }
    print_comparison(out, axes, all, knots, samples, tensor);
    print_scratch(out, &scratch);
}

// The sample of an accepted change stands among the samples.
fn stand(samples: &mut [f64], number: usize, sample: f64) {
    if number < samples.len() {
        samples[number] = sample;
    }
}

// Whether a tensor has the bits of a fresh build. One of more than 400 numbers is not compared.
fn print_comparison(
    out: Stdout,
    axes: usize,
    all: [Axis; 4],
    knots: &[f64],
    samples: &[f64],
    tensor: &[f64],
) {
    let length = tensor.len();
    if length > 400 {
        print(out, b" not compared");
        return;
    }
    let mut fresh = [BEFORE; 400];
    print_same(
        out,
        axes,
        all,
        knots,
        samples,
        tensor,
        &mut fresh[0..length],
    );
}

// The fresh build, and whether it has the tensor's bits.
fn print_same(
    out: Stdout,
    axes: usize,
    all: [Axis; 4],
    knots: &[f64],
    samples: &[f64],
    tensor: &[f64],
    fresh: &mut [f64],
) {
    let mut scratch = [0.0; 2448];
    let given = tensor::build(axes, all, knots, samples, fresh, &mut scratch);
    if given.is_err() {
        print(out, b" no fresh build");
    } else if same(tensor, fresh) {
        print(out, b" same");
    } else {
        print(out, b" differs");
    }
}
