// The ways in which the cell of a point is found on an axis, and what is looked at for 8 there.
ghost use Rattle.std.specs.Prelude.{◌≡◌, ◌+◌, ◌<◌, ◌≤◌, length};
ghost use Rattle.query_answer.specs.Ways.{direct_cell_in, by_search, CellOn, knots_refused_by};

// Walked: by the search, and all knots of the axis are looked at.
// Searched: by the search, and the two knots of the cell are looked at.
// Direct: by one division, for knots that were looked at before.
// Divided: by one division, and the two knots of the cell are looked at.
#[derive(Clone, Copy)]
pub enum Way {
    Walked,
    Searched,
    Direct,
    Divided,
}

// The cell of a point by one division: only the first two knots are looked at.
fn direct_cell(knots: &[f64], point: f64) -> usize
    requires { 2 ≤ length knots.now }
    ensures { result ≡ direct_cell_in knots.now point }
{
    axis_even::locate_lower_index_uniform(knots[0], knots[1] - knots[0], knots.len(), point)
}

// Whether a way is by the search.
fn by_search(way: Way) -> bool
    ensures { result ≡ by_search way }
{
    matches!(way, Way::Walked | Way::Searched)
}

// The cell on one axis: the search takes the point as it is given, the division takes it where its mode has placed it. Each is called from
// one place, so that all of this is small enough for the compiler to put it where it is called.
pub fn cell_on_axis(way: Way, knots: &[f64], point: f64, placed: f64) -> usize
    requires { (2 ≤ length knots.now) × (length knots.now ≤ 256) }
    ensures { CellOn way knots.now point placed result }
{
    if by_search(way) {
        return axis_locate::locate_lower_index(knots, point);
    }
    direct_cell(knots, placed)
}

// Whether the knots of an axis are refused by 8, where this is the cell. A finite step that rises lies between finite knots, so of a cell
// the step alone is looked at.
pub fn knots_refused(way: Way, knots: &[f64], cell: usize) -> bool
    requires { cell + 1 < length knots.now }
    ensures { result ≡ knots_refused_by way knots.now cell }
{
    match way {
        Way::Walked => grid_checks::rising::knots_refused(knots),
        Way::Searched => grid_checks::rising::step_refused(knots[cell], knots[cell + 1]),
        Way::Direct => false,
        Way::Divided => grid_checks::rising::step_refused(knots[cell], knots[cell + 1]),
    }
}
