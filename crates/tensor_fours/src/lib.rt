// Four numbers side by side, one of each of four lanes, by value: so the compiler keeps them in one register. None of these is a public
// call: those on the scratch require that their row or their places lie in it.

#![tactic(auto)]

ghost use Rattle.std.specs.Prelude.{◌+◌, ◌*◌, ◌<◌, ◌≤◌, length};
ghost use Rattle.rules.specs.Numbers.{at, ◌⊕◌, ◌⊖◌, ◌⊗◌, ◌⊘◌};
ghost use Rattle.tensor_fours.specs.Fours.{Lanewise, Four, in_row, place, RowSet, Stored};

// One number in each lane.
pub fn alike(x: f64) -> [f64; 4]
    ensures { Lanewise result (λ l. x) }
{
    [x, x, x, x]
}

// Sum, lane by lane.
pub fn plus(a: [f64; 4], b: [f64; 4]) -> [f64; 4]
    ensures { Lanewise result (λ l. at a l ⊕ at b l) }
{
    [a[0] + b[0], a[1] + b[1], a[2] + b[2], a[3] + b[3]]
}

// Difference, lane by lane.
pub fn minus(a: [f64; 4], b: [f64; 4]) -> [f64; 4]
    ensures { Lanewise result (λ l. at a l ⊖ at b l) }
{
    [a[0] - b[0], a[1] - b[1], a[2] - b[2], a[3] - b[3]]
}

// One factor for all lanes, which stands first as in the rules.
pub fn times(x: f64, a: [f64; 4]) -> [f64; 4]
    ensures { Lanewise result (λ l. x ⊗ at a l) }
{
    [x * a[0], x * a[1], x * a[2], x * a[3]]
}

// The same where the rules have that factor behind.
pub fn scaled(a: [f64; 4], x: f64) -> [f64; 4]
    ensures { Lanewise result (λ l. at a l ⊗ x) }
{
    [a[0] * x, a[1] * x, a[2] * x, a[3] * x]
}

// One divisor for all lanes.
pub fn over(a: [f64; 4], x: f64) -> [f64; 4]
    ensures { Lanewise result (λ l. at a l ⊘ x) }
{
    [a[0] / x, a[1] / x, a[2] / x, a[3] / x]
}

// The four numbers of row k of a block of the scratch.
pub fn get_row(w: &[f64], block: usize, k: usize) -> [f64; 4]
    requires { block + 4 * k + 4 ≤ length w.now }
    ensures { Lanewise result (λ l. in_row w.now block k l) }
{
    let i = block + 4 * k;
    [w[i], w[i + 1], w[i + 2], w[i + 3]]
}

// Four numbers go to row k of a block.
pub fn set_row(w: &mut [f64], block: usize, k: usize, v: [f64; 4])
    requires { block + 4 * k + 4 ≤ length w.old }
    ensures { RowSet w.old w.new block k v }
{
    let i = block + 4 * k;
    w[i] = v[0];
    w[i + 1] = v[1];
    w[i + 2] = v[2];
    w[i + 3] = v[3];
}

// The numbers that stand `offset` behind four places.
pub fn load(w: &[f64], places: [usize; 4], offset: usize) -> [f64; 4]
    requires { Four (λ l. place places l + offset < length w.now) }
    ensures { Lanewise result (λ l. at w.now (place places l + offset)) }
{
    [
        w[places[0] + offset],
        w[places[1] + offset],
        w[places[2] + offset],
        w[places[3] + offset],
    ]
}

// Four numbers go `offset` behind four places, of which some may be one and the same.
pub fn store(w: &mut [f64], places: [usize; 4], offset: usize, v: [f64; 4])
    requires { Four (λ l. place places l + offset < length w.old) }
    ensures { Stored w.old w.new places offset v }
{
    w[places[0] + offset] = v[0];
    w[places[1] + offset] = v[1];
    w[places[2] + offset] = v[2];
    w[places[3] + offset] = v[3];
}
