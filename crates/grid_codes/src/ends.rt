// The kinds of the ends of an axis: from their numbers to a condition, and back.
ghost use Rattle.std.specs.Prelude.{◌≡◌};
ghost use Rattle.grid_codes.specs.Kinds.{
  unknown_kind,
  values_of_kind,
  end_of_kind,
  condition_of_kind,
  periodic_at_one_end,
  kinds_refused,
  kind_of_end,
  value_of_end,
  lower_kind_of,
  upper_kind_of,
  lower_value_of,
  upper_value_of,
};

use rules::{Condition, End};

// A kind that stands in a byte, as the wide number that kinds are decided on: it refuses nothing.
pub fn wide(kind: u8) -> u64
    ensures { result ≡ kind }
{
    kind as u64
}

// Whether there is no such kind.
fn is_unknown(kind: u64) -> bool
    ensures { result ≡ unknown_kind kind }
{
    !matches!(kind, 0..=3)
}

// How many patterns an end of a kind has: it refuses nothing.
pub fn values_of_kind(kind: u64) -> usize
    ensures { result ≡ values_of_kind kind }
{
    match kind {
        1..=2 => 1,
        _ => 0,
    }
}

// The end of a kind, with its number where the kind has one: it refuses nothing, and takes any other kind for NotAKnot.
pub fn end_of_kind(kind: u64, value: f64) -> End
    ensures { result ≡ end_of_kind kind value }
{
    match kind {
        1 => End::FirstDerivative(value),
        2 => End::SecondDerivative(value),
        _ => End::NotAKnot,
    }
}

// The condition of two ends, where `kind` is that of the lower one: it refuses nothing.
pub fn condition_of_kind(kind: u64, lower: End, upper: End) -> Condition
    ensures { result ≡ condition_of_kind kind lower upper }
{
    match kind {
        3 => Condition::Periodic,
        _ => Condition::Endpoints(lower, upper),
    }
}

// Whether kind 3 stands at one end only: it refuses nothing.
pub fn is_periodic_at_one_end(lower: u64, upper: u64) -> bool
    ensures { result ≡ periodic_at_one_end lower upper }
{
    match lower {
        3 => upper != 3,
        _ => upper == 3,
    }
}

// Whether the kinds of an axis are refused by 13.
pub fn kinds_refused(lower: u64, upper: u64) -> bool
    ensures { result ≡ kinds_refused lower upper }
{
    is_unknown(lower) || is_unknown(upper) || is_periodic_at_one_end(lower, upper)
}

// The number of an end's kind.
fn kind_of_end(end: End) -> u8
    ensures { result ≡ kind_of_end end }
{
    match end {
        End::NotAKnot => 0,
        End::FirstDerivative(_) => 1,
        End::SecondDerivative(_) => 2,
    }
}

// The value of an end, +0.0 where its kind has none.
fn value_of_end(end: End) -> f64
    ensures { result ≡ value_of_end end }
{
    match end {
        End::NotAKnot => 0.0,
        End::FirstDerivative(value) | End::SecondDerivative(value) => value,
    }
}

// The kinds and the values of the two ends of a condition: none of these refuses anything.
pub fn lower_kind(condition: Condition) -> u8
    ensures { result ≡ lower_kind_of condition }
{
    match condition {
        Condition::Endpoints(lower, _) => kind_of_end(lower),
        Condition::Periodic => 3,
    }
}

pub fn upper_kind(condition: Condition) -> u8
    ensures { result ≡ upper_kind_of condition }
{
    match condition {
        Condition::Endpoints(_, upper) => kind_of_end(upper),
        Condition::Periodic => 3,
    }
}

pub fn lower_value(condition: Condition) -> f64
    ensures { result ≡ lower_value_of condition }
{
    match condition {
        Condition::Endpoints(lower, _) => value_of_end(lower),
        Condition::Periodic => 0.0,
    }
}

pub fn upper_value(condition: Condition) -> f64
    ensures { result ≡ upper_value_of condition }
{
    match condition {
        Condition::Endpoints(_, upper) => value_of_end(upper),
        Condition::Periodic => 0.0,
    }
}
