// On which side of the knots of an axis a point lies, and what the axis's mode makes of a point outside. None of these is a public call:
// all but `is_outside` require a knot.
ghost use Rattle.std.specs.Prelude.{◌≡◌, ◌≤◌, length};
ghost use Rattle.rules.specs.Outside.{side, nearest, outside};
ghost use Rattle.grid_codes.specs.Modes.{mode_of_number};
ghost use Rattle.axis_locate.specs.CellFound.{Placed};

use grid_codes::modes::{is_hold, is_refuse};
use rules::Side;

// The coordinate at which a query works its value out on an axis, and whether the mode refuses it.
#[derive(Clone, Copy)]
pub struct PlacedPoint {
    pub coordinate: f64,
    pub refused: bool,
}

// Which side it is: the first knot is asked before the last, and a point on either of them is inside.
fn side_of(knots: &[f64], point: f64) -> Side
    requires { 1 ≤ length knots.now }
    ensures { result ≡ side knots.now point }
{
    if point < knots[0] {
        return Side::Below;
    }
    if knots[knots.len() - 1] < point {
        return Side::Above;
    }
    Side::Inside
}

// The end knot nearest to a point on that side, and inside the point itself.
fn nearest(side: Side, knots: &[f64], point: f64) -> f64
    requires { 1 ≤ length knots.now }
    ensures { result ≡ nearest side knots.now point }
{
    match side {
        Side::Below => knots[0],
        Side::Inside => point,
        Side::Above => knots[knots.len() - 1],
    }
}

// Whether a point on that side lies outside.
fn is_outside(side: Side) -> bool
    ensures { result ≡ outside side }
{
    !matches!(side, Side::Inside)
}

// What the mode of a number makes of a point: extend looks at no knot.
pub fn place_on_axis(mode: u8, knots: &[f64], point: f64) -> PlacedPoint
    requires { 1 ≤ length knots.now }
    ensures { Placed (mode_of_number mode) knots.now point result }
{
    if is_hold(mode) {
        return PlacedPoint {
            coordinate: nearest(side_of(knots, point), knots, point),
            refused: false,
        };
    }
    if is_refuse(mode) {
        return PlacedPoint {
            coordinate: point,
            refused: is_outside(side_of(knots, point)),
        };
    }
    PlacedPoint {
        coordinate: point,
        refused: false,
    }
}
