// The changes of each list, refused ones among them.
use crate::compared::ChangedSample;

// One change: its place, where that stands among the samples, and the new sample.
fn changed(place: [usize; 4], number: usize, sample: f64) -> ChangedSample {
    ChangedSample {
        place,
        number,
        sample,
    }
}

pub fn one_axis() -> [ChangedSample; 6] {
    [
        changed([4, 0, 0, 0], 4, 0.1),
        changed([5, 0, 0, 0], 4, 0.2),
        changed([0, 0, 0, 0], 0, -3.5),
        changed([2, 0, 0, 0], 2, 0.0 / 0.0),
        changed([2, 0, 0, 0], 2, 1.7e308),
        changed([2, 9, 9, 9], 2, 1e-300),
    ]
}

pub fn two_axes() -> [ChangedSample; 6] {
    [
        changed([1, 1, 0, 0], 4, 2.5),
        changed([3, 2, 0, 0], 11, -0.75),
        changed([1, 3, 0, 0], 4, 9.0),
        changed([0, 0, 0, 0], 0, 1.0 / 0.0),
        changed([1, 1, 0, 0], 4, -1e307),
        changed([1, 1, 0, 0], 4, 2.5),
    ]
}

pub fn three_axes() -> [ChangedSample; 6] {
    [
        changed([0, 0, 0, 0], 0, 5.0),
        changed([2, 3, 1, 0], 23, -1.5),
        changed([1, 2, 2, 0], 13, 4.0),
        changed([1, 2, 1, 0], 13, 0.1),
        changed([1, 2, 1, 0], 13, 1e308),
        changed([0, 1, 0, 7], 2, -7.25),
    ]
}

pub fn four_axes() -> [ChangedSample; 6] {
    [
        changed([1, 2, 1, 1], 23, -4.0),
        changed([0, 1, 0, 1], 5, 0.3),
        changed([0, 1, 0, 2], 5, 0.4),
        changed([1, 0, 1, 0], 14, 0.0 / 0.0),
        changed([1, 0, 1, 0], 14, 6.5),
        changed([0, 1, 0, 1], 5, -0.0),
    ]
}
