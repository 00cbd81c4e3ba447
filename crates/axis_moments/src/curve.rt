// What a curve's moments give: its slope at a knot, and its value in a cell. Neither is a public call.
ghost use Rattle.std.specs.Prelude.{◌≡◌, ◌+◌, ◌-◌, ◌<◌, length};
ghost use Rattle.rules.specs.Curve.{knot_slope, curve_in_cell};
ghost use Rattle.axis_moments.specs.SlopeAndValue.{AxisLengths};

// The slope of the curve at knot i. It requires a sample and a moment for each of at least two knots, and that i is one of them.
pub fn knot_slope(x: &[f64], y: &[f64], m: &[f64], i: usize) -> f64
    requires { AxisLengths x.now y.now m.now × (i < length x.now) }
    ensures { result ≡ knot_slope x.now (length x.now - 1) y.now m.now i }
{
    let n = x.len() - 1;
    if i < n {
        let h = x[i + 1] - x[i];
        (y[i + 1] - y[i]) / h - h * (2.0 * m[i] + m[i + 1]) / 6.0
    } else {
        let last = n - 1;
        let h = x[last + 1] - x[last];
        (y[last + 1] - y[last]) / h + h * (m[last] + 2.0 * m[n]) / 6.0
    }
}

// The curve's value at a point, by the cubic of cell i. It requires a sample and a moment for each knot, and that there is such a cell.
pub fn curve_in_cell(x: &[f64], y: &[f64], m: &[f64], i: usize, point: f64) -> f64
    requires { AxisLengths x.now y.now m.now × (i + 1 < length x.now) }
    ensures { result ≡ curve_in_cell x.now y.now m.now i point }
{
    let h = x[i + 1] - x[i];
    let dx = point - x[i];
    let dx_r = h - dx;
    let six_h = 6.0 * h;
    let h2_over_six = h * h / 6.0;
    m[i] * dx_r * dx_r * dx_r / six_h
        + m[i + 1] * dx * dx * dx / six_h
        + (y[i] - m[i] * h2_over_six) * dx_r / h
        + (y[i + 1] - m[i + 1] * h2_over_six) * dx / h
}
