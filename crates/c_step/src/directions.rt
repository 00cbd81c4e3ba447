// Directions as numbers: 0 is lower, 1 is upper.
ghost use Rattle.std.specs.Prelude.{◌≡◌, ◌≤◌, ◌<◌, length};
ghost use Rattle.c_step.specs.Directions.{direction_of_number, some_direction_refused, direction_given, directions_given};

use rules::StepDirection;

// The direction of a number: lower for 0, upper for any other.
pub fn direction_of_number(number: u8) -> StepDirection
    ensures { result ≡ direction_of_number number }
{
    if number == 0 {
        StepDirection::Lower
    } else {
        StepDirection::Upper
    }
}

// Whether the number of an axis in use is neither 0 nor 1. Not a public call: four numbers and at most four axes are required.
pub fn some_direction_refused(axes: usize, numbers: &[u8]) -> bool
    requires { (axes ≤ 4) × (length numbers.now ≡ 4) }
    ensures { result ≡ some_direction_refused axes numbers.now }
{
    numbers[..axes].iter().any(|number| 1 < *number)
}

// Entry i of the four directions.
fn direction_given(axes: usize, numbers: &[u8], i: usize) -> StepDirection
    requires { i < length numbers.now }
    ensures { result ≡ direction_given axes numbers.now i }
{
    if i < axes {
        direction_of_number(numbers[i])
    } else {
        StepDirection::Lower
    }
}

// The four directions. Not a public call: four numbers are required.
pub fn directions_given(axes: usize, numbers: &[u8]) -> [StepDirection; 4]
    requires { length numbers.now ≡ 4 }
    ensures { result ≡ directions_given axes numbers.now }
{
    [
        direction_given(axes, numbers, 0),
        direction_given(axes, numbers, 1),
        direction_given(axes, numbers, 2),
        direction_given(axes, numbers, 3),
    ]
}
