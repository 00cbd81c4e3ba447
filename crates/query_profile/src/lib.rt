// The profile of even axes: a grid's knots looked at once, as the query of even axes looks at them each time. Where nothing is refused, the
// direct query answers as that query does, whatever tensor, modes and coordinates it is lent.

#![tactic(auto)]

ghost use Rattle.std.specs.Prelude.{◌≡◌, length};
ghost use Rattle.rules.specs.Sizes.{place_of};
ghost use Rattle.rules.specs.Answers.{refusal_of};
ghost use Rattle.grid.specs.GridOfCall.{grid};
ghost use Rattle.query_profile.specs.declared.ProfileRefusal.TheVariants.{Refused};
ghost use Rattle.query_profile.specs.ProfileCalls.{even_profile_told, LackGiven, EvenProfilePromise};
ghost use Rattle.query_profile.specs.Profiled.{profile_sizes_check, ProfileFits, ProfileAmong};

use grid_checks::{lengths, rising, sizes};
use query_even::qualities::{Lack, Quality};
use query_even::{pass, qualities};
use rules::{Axis, Refusal};

// Why the profile refuses: for its sizes and lengths (1 to 4), or for the knots of the lowest axis that lacks a quality, with the first
// knot or interval by which it does (7, 8, 21).
#[derive(Clone, Copy)]
pub enum ProfileRefusal {
    Refused(Refusal),
    NotFinite(Lack),
    NotRising(Lack),
    Uneven(Lack),
}

impl From<Refusal> for ProfileRefusal {
    ghost from_gives = { λ refusal given. given ≡ Refused refusal };

    fn from(refusal: Refusal) -> ProfileRefusal {
        ProfileRefusal::Refused(refusal)
    }
}

// What axes of so many points and so many knots meet: 1, 2, 3 or 4. Not a public call: four points are required.
fn check_profile_sizes(axes: usize, points: &[usize], knots: usize) -> Result<(), Refusal>
    requires { length points.now ≡ 4 }
    ensures { refusal_of result ≡ profile_sizes_check axes (place_of points.now) knots }
{
    if sizes::axes_refused(axes) {
        return Err(Refusal::Axes);
    }
    let found = sizes::sizes_of_points(axes, points)?;
    if lengths::length_refused(knots, found.knots) {
        return Err(Refusal::Length);
    }
    Ok(())
}

// PUBLIC. Whether the knots of a grid are such that the query of even axes refuses neither them nor an axis: where nothing is refused, the
// direct query gives that query's whole answer, for every tensor, every modes and every coordinates. Refuses 1 2 3 4 7 8 21, in this order,
// 4 for the knots and 7 in the knots alone. 7 tells the lowest axis with a knot that is infinite or NaN and its first; 8 the lowest axis
// whose knots are refused and its first interval that does not rise by a finite step; 21 the lowest axis that is not even and its first
// interval that fails. All are counted from 0.
pub fn even_profile(axes: usize, all: [Axis; 4], knots: &[f64]) -> Result<(), ProfileRefusal>
    ensures { EvenProfilePromise (grid axes all knots.now) (even_profile_told result) × LackGiven result }
{
    let points = grid::points_of(all);
    check_profile_sizes(axes, &points, knots.len())?;
    even_profile_of_points(axes, &points, knots)
}

// The same where knots may be refused. First 8 is looked for, in one pass, and 7 only where that finds something: knots that pass 8 are
// finite. Last comes 21. Not a public call: that 1 to 4 do not apply is required, and four points.
fn even_profile_by_walks(axes: usize, points: &[usize], knots: &[f64]) -> Result<(), ProfileRefusal>
    requires { ProfileFits axes points.now knots.now }
    ensures { ProfileAmong axes points.now knots.now (even_profile_told result) × LackGiven result }
{
    if rising::knots_of_points_refused(axes, points, knots) {
        if let Some(lack) = qualities::first_lacking(Quality::Finite, axes, points, knots) {
            return Err(ProfileRefusal::NotFinite(lack));
        }
        if let Some(lack) = qualities::first_lacking(Quality::Rising, axes, points, knots) {
            return Err(ProfileRefusal::NotRising(lack));
        }
    }
    match qualities::first_lacking(Quality::Even, axes, points, knots) {
        Some(lack) => Err(ProfileRefusal::Uneven(lack)),
        None => Ok(()),
    }
}

// The same on axes of these points, where 1 to 4 do not apply: one pass over the knots as the query of even axes makes it, and only where
// it finds what may be refused the rest. Not a public call: that 1 to 4 do not apply is required, and four points.
pub fn even_profile_of_points(
    axes: usize,
    points: &[usize],
    knots: &[f64],
) -> Result<(), ProfileRefusal>
    requires { ProfileFits axes points.now knots.now }
    ensures { ProfileAmong axes points.now knots.now (even_profile_told result) × LackGiven result }
{
    if pass::knots_may_be_refused(axes, points, knots) {
        return even_profile_by_walks(axes, points, knots);
    }
    Ok(())
}
