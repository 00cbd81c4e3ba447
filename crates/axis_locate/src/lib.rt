// Where a point lies among the knots of an axis, as the Rust's `locate_lower_index` finds it. None of these is a public call:
// `locate_lower_index` requires 2 to 256 knots.

#![tactic(auto)]

ghost use Rattle.std.specs.Prelude.{◌≡◌, ◌+◌, ◌≤◌, ◌<◌, length};
ghost use Rattle.rules.specs.Search.{one_back, held};
ghost use Rattle.axis_locate.specs.CellFound.{Located};

pub mod outside; // outside.rt: the side of a point, and what a mode makes of it

// The index, or points minus 2, the last cell, where that is less.
fn held(index: usize, points: usize) -> usize
    requires { 2 ≤ points }
    ensures { result ≡ held index points }
{
    index.min(points - 2)
}

// One back from where the search ended, where that knot is at or above the point.
fn one_back(knots: &[f64], point: f64, low: usize) -> usize
    requires { low < length knots.now }
    ensures { result ≡ one_back knots.now point low }
{
    if low > 0 && knots[low] >= point {
        low - 1
    } else {
        low
    }
}

// The cell of a point among 2 to 256 knots, whatever they are, by at most 8 halvings. On an interior knot it is the cell below. How many
// halvings there are goes by the number of knots alone, and the count to 8 lets the compiler unroll them, so none takes a branch at a knot:
// once low and high have met, a halving looks at the knot at high again, and high stays.
pub fn locate_lower_index(knots: &[f64], point: f64) -> usize
    requires { (2 ≤ length knots.now) × (length knots.now ≤ 256) }
    ensures { Located knots.now point result }
{
    if point < knots[0] {
        return 0;
    }
    if point >= knots[knots.len() - 1] {
        return knots.len() - 2;
    }
    let mut low = 0;
    let mut high = knots.len() - 1;
    let mut width = knots.len() - 1;
    let mut halvings: usize = 0;
    loop {
        if halvings == 8 || width == 0 {
            break held(one_back(knots, point, high), knots.len());
        }
        halvings += 1;
        width /= 2;
        let mid = (low + high) / 2;
        if knots[mid] >= point {
            high = mid;
        } else {
            low = mid + 1;
        }
    }
}
