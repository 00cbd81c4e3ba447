// The types that the rules speak of: ends, conditions, axes, and what the public calls answer.

#![tactic(auto)]

ghost use Rattle.std.specs.Prelude.{◌≡◌};
ghost use Rattle.rules.specs.Ends.{zero_valued, crossed, not_a_knot, natural, clamped, periodic, first_derivative, second_derivative};
ghost use Rattle.rules.specs.Sizes.{unused_axis};
ghost use Rattle.rules.specs.Answers.{number_of, refusal_of};
ghost use Rattle.rules.specs.declared.EvenRefusal.TheVariants.{Refused};

// An end of an axis.
#[derive(Clone, Copy)]
pub enum End {
    NotAKnot,
    FirstDerivative(f64),
    SecondDerivative(f64),
}

// Both ends of an axis, lower first, or the whole axis periodic.
#[derive(Clone, Copy)]
pub enum Condition {
    Endpoints(End, End),
    Periodic,
}

// What a query does with a coordinate outside the knots of its axis: extend the outermost cubic, take the nearest end knot, or refuse.
#[derive(Clone, Copy)]
pub enum Mode {
    Extend,
    Hold,
    Refuse,
}

// An axis as a call is given it. Neither the build nor the change reads its mode.
#[derive(Clone, Copy)]
pub struct Axis {
    pub points: usize,
    pub condition: Condition,
    pub mode: Mode,
}

// Where a coordinate lies beside the knots of its axis; on an end knot it is inside.
#[derive(Clone, Copy)]
pub enum Side {
    Below,
    Inside,
    Above,
}

// What an end's row has for its own knot and for the one neighbour it names.
#[derive(Clone, Copy)]
pub struct Row {
    pub diagonal: f64,
    pub neighbour: f64,
    pub right: f64,
}

// The surface's value, and of each axis the label: the cell that was evaluated.
#[derive(Clone, Copy)]
pub struct ValueInCell {
    pub value: f64,
    pub labels: [usize; 4],
}

// Which way a step goes: down to the knot at or below a point, or up to the one at or above it.
#[derive(Clone, Copy)]
pub enum StepDirection {
    Lower,
    Upper,
}

// Where a point lies among knots: on one of them, or beside the lower one of its cell at a fraction of the cell's width.
#[derive(Clone, Copy)]
pub enum AxisLocation {
    Exact(usize),
    Between { lower: usize, frac: f64 },
}

// The sample at the indices of the steps, and these, of each axis.
#[derive(Clone, Copy)]
pub struct SteppedSample {
    pub value: f64,
    pub indices: [usize; 4],
}

// Why a call refuses. Each refusal has a number, by which C is told of it; the numbers stand in document 01.
#[derive(Clone, Copy)]
pub enum Refusal {
    Axes = 1,
    Points = 2,
    Tensor = 3,
    Length = 4,
    Scratch = 5,
    Place = 6,
    Number = 7,
    Knots = 8,
    Fewness = 9,
    Outcome = 10,
    Short = 11,
    Edition = 12,
    Kinds = 13,
    Tail = 14,
    Buffer = 15,
    Stack = 16,
    Unused = 17,
    Outside = 18,
    Range = 19,
    Position = 20,
    Uneven = 21,
    Mode = 22,
    Lost = 23,
}

// Why the query of even axes refuses: as any query, or for the lowest axis that is not even, with its first interval that fails.
#[derive(Clone, Copy)]
pub enum EvenRefusal {
    Refused(Refusal),
    Uneven { axis: usize, interval: usize },
}

// What C is told of a call that gives nothing else: the number of its refusal, or 0.
pub fn number_told(given: Result<(), Refusal>) -> usize
    ensures { result ≡ refusal_of given }
{
    match given {
        Ok(()) => 0,
        Err(refusal) => refusal.number(),
    }
}

impl Refusal {
    // Its number.
    pub fn number(self) -> usize
        ensures { result ≡ number_of self }
    {
        self as usize
    }
}

impl From<Refusal> for EvenRefusal {
    ghost from_gives = { λ refusal given. given ≡ Refused refusal };

    fn from(refusal: Refusal) -> EvenRefusal {
        EvenRefusal::Refused(refusal)
    }
}

impl End {
    // The end that a spline through derivatives takes: of the same kind, with +0.0 for its number.
    pub fn zero_valued(self) -> End
        ensures { result ≡ zero_valued self }
    {
        match self {
            End::NotAKnot => End::NotAKnot,
            End::FirstDerivative(_) => End::FirstDerivative(0.0),
            End::SecondDerivative(_) => End::SecondDerivative(0.0),
        }
    }
}

impl Condition {
    pub const NOT_A_KNOT: Condition = Condition::Endpoints(End::NotAKnot, End::NotAKnot);

    pub const NATURAL: Condition = Condition::Endpoints(
        End::SecondDerivative(0.0),
        End::SecondDerivative(0.0),
    );

    pub const PERIODIC: Condition = Condition::Periodic;

    // NotAKnot at both ends.
    pub fn not_a_knot() -> Condition
        ensures { result ≡ not_a_knot }
    {
        Condition::NOT_A_KNOT
    }

    // A second derivative of zero at both ends.
    pub fn natural() -> Condition
        ensures { result ≡ natural }
    {
        Condition::NATURAL
    }

    // The first derivatives of both ends, under the name that the Rust's strategy has for the pair.
    pub fn clamped(lower: f64, upper: f64) -> Condition
        ensures { result ≡ clamped lower upper }
    {
        Condition::first_derivative(lower, upper)
    }

    // The whole axis periodic.
    pub fn periodic() -> Condition
        ensures { result ≡ periodic }
    {
        Condition::PERIODIC
    }

    // The first derivatives of both ends.
    pub fn first_derivative(lower: f64, upper: f64) -> Condition
        ensures { result ≡ first_derivative lower upper }
    {
        Condition::Endpoints(End::FirstDerivative(lower), End::FirstDerivative(upper))
    }

    // The second derivatives of both ends.
    pub fn second_derivative(lower: f64, upper: f64) -> Condition
        ensures { result ≡ second_derivative lower upper }
    {
        Condition::Endpoints(End::SecondDerivative(lower), End::SecondDerivative(upper))
    }

    // The condition that a spline through derivatives takes: both ends so, and Periodic as it is.
    pub fn crossed(self) -> Condition
        ensures { result ≡ crossed self }
    {
        match self {
            Condition::Endpoints(lower, upper) => {
                Condition::Endpoints(lower.zero_valued(), upper.zero_valued())
            }
            Condition::Periodic => Condition::Periodic,
        }
    }
}

impl Axis {
    // An axis not in use.
    pub fn unused() -> Axis
        ensures { result ≡ unused_axis }
    {
        Axis {
            points: 0,
            condition: Condition::NOT_A_KNOT,
            mode: Mode::Extend,
        }
    }
}
