// The axes of each list of changes.
use rules::{Axis, Condition, End};
use trial_tensor_lines::grids;

// 5 points, NotAKnot below and a first derivative above.
pub fn one() -> [Axis; 4] {
    grids::one(
        5,
        Condition::Endpoints(End::NotAKnot, End::FirstDerivative(-1.0)),
    )
}

// 4 and 3 points, NotAKnot and with second derivatives.
pub fn two() -> [Axis; 4] {
    grids::two(
        grids::axis(4, Condition::not_a_knot()),
        grids::axis(3, Condition::second_derivative(0.5, -1.5)),
    )
}

// 3, 4 and 2 points, clamped, NotAKnot and periodic.
pub fn three() -> [Axis; 4] {
    grids::three(
        grids::axis(3, Condition::clamped(1.0, -2.0)),
        grids::axis(4, Condition::not_a_knot()),
        grids::axis(2, Condition::periodic()),
    )
}

// 2, 3, 2 and 2 points, natural, periodic, clamped, and with second derivatives.
pub fn four() -> [Axis; 4] {
    [
        grids::axis(2, Condition::natural()),
        grids::axis(3, Condition::periodic()),
        grids::axis(2, Condition::first_derivative(0.5, 2.0)),
        grids::axis(2, Condition::second_derivative(1.0, 0.0)),
    ]
}
