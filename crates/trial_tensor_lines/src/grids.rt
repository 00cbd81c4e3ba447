// The grids and the samples of the examples.
use rules::{Axis, Condition, Mode};

// An axis that extends.
pub fn axis(points: usize, condition: Condition) -> Axis {
    Axis {
        points,
        condition,
        mode: Mode::Extend,
    }
}

pub fn one(points: usize, condition: Condition) -> [Axis; 4] {
    one_in_mode(points, condition, Mode::Extend)
}

pub fn one_in_mode(points: usize, condition: Condition, mode: Mode) -> [Axis; 4] {
    let axis = Axis {
        points,
        condition,
        mode,
    };
    [axis, Axis::unused(), Axis::unused(), Axis::unused()]
}

pub fn two(first: Axis, second: Axis) -> [Axis; 4] {
    [first, second, Axis::unused(), Axis::unused()]
}

pub fn three(first: Axis, second: Axis, third: Axis) -> [Axis; 4] {
    [first, second, third, Axis::unused()]
}

// The knots of two axes, of which the first has so many: 0, 1, 2 and so on, twice.
pub fn rising(knots: &mut [f64], first: usize) {
    let mut knot = 0.0;
    for (i, place) in knots.iter_mut().enumerate() {
        if i == first {
            knot = 0.0;
        }
        *place = knot;
        knot += 1.0;
    }
}

// From 0 up by 3.25, and down by 10 where that passes 10.
pub fn sawtooth(numbers: &mut [f64]) {
    let mut number = 0.0;
    for place in numbers {
        *place = number;
        number = next_tooth(number);
    }
}

fn next_tooth(number: f64) -> f64 {
    if number > 6.75 {
        number - 6.75
    } else {
        number + 3.25
    }
}
