// What is lent of many points, looked at by lengths alone.
ghost use Rattle.std.specs.Prelude.{◌≡◌, ◌*◌, ◌≤◌};
ghost use Rattle.rules.specs.Refusals.{length_refused};
ghost use Rattle.many_points.specs.ManyPoints.{points_lengths_refused};

use grid_checks::lengths;

// Whether a length is not that of so many parts of one size: by division, since the product may be more than a number holds. Not a public
// call: a part is not empty.
pub fn parts_refused(given: usize, size: usize, count: usize) -> bool
    requires { 1 ≤ size }
    ensures { result ≡ length_refused given (size * count) }
{
    if given / size != count {
        return true;
    }
    given % size != 0
}

// Whether the points do not each have a coordinate on every axis, a value and four labels. Not a public call: some axis is required.
pub fn points_lengths_refused(
    axes: usize,
    coordinates: usize,
    values: usize,
    labels: usize,
    count: usize,
) -> bool
    requires { 1 ≤ axes }
    ensures { result ≡ points_lengths_refused axes coordinates values labels count }
{
    if parts_refused(coordinates, axes, count) {
        return true;
    }
    if lengths::length_refused(values, count) {
        return true;
    }
    parts_refused(labels, 4, count)
}
