// The profile of even axes as `hullashlar` exports it, over numbers and plain slices. It returns its refusal's number, 0 for none: the
// host's own first, and then the call's.

#![tactic(auto)]

ghost use Rattle.std.specs.Prelude.{◌≡◌};
ghost use Rattle.rules.specs.Answers.{number_of, refusal_of};
ghost use Rattle.c_profile.specs.ProfileExports.{in_slot_of_two, even_profile_own_refusal, EvenProfileExport};

use c_refusals::own;
use grid_checks::lengths;
use query_even::qualities::Lack;
use query_profile::ProfileRefusal;
use rules::Refusal;

// What the host itself refuses: what its axes meet, and 4 for the slot of what is told and for the knots.
fn check_even_profile(
    axes: usize,
    points: &[usize],
    knots: &[f64],
    told: &[usize],
) -> Result<(), Refusal>
    ensures { refusal_of result ≡ even_profile_own_refusal axes points.now knots.now told.now }
{
    let found = own::check_axes(axes, points)?;
    if lengths::length_refused(told.len(), 2) {
        return Err(Refusal::Length);
    }
    if lengths::length_refused(knots.len(), found.knots) {
        return Err(Refusal::Length);
    }
    Ok(())
}

// An axis and a place go to their slot, which is left as it was where it is another slice.
fn store_told(slot: &mut [usize], axis: usize, place: usize)
    ensures { slot.new ≡ in_slot_of_two slot.old axis place }
{
    if slot.len() != 2 {
        return;
    }
    slot[0] = axis;
    slot[1] = place;
}

// The number of a refusal whose axis and place go to their slot.
fn tell_lack(told: &mut [usize], refusal: Refusal, lack: Lack) -> usize
    ensures { (result ≡ number_of refusal) × (told.new ≡ in_slot_of_two told.old lack.axis lack.place) }
{
    store_told(told, lack.axis, lack.place);
    refusal.number()
}

// The number of a refusal that has no axis and no place, for which zeros are told.
fn tell_none(told: &mut [usize], refusal: Refusal) -> usize
    ensures { (result ≡ number_of refusal) × (told.new ≡ in_slot_of_two told.old 0 0) }
{
    store_told(told, 0, 0);
    refusal.number()
}

// Whether the knots are such that the query of even axes refuses neither them nor an axis; after 7, 8 and 21 the axis that is refused and
// its knot or interval, in a slot of two. Refuses 1 2 3 4 7 8 21, in this order; and 4 of its own.
pub fn even_profile(axes: usize, points: &[usize], knots: &[f64], told: &mut [usize]) -> usize
    ensures { EvenProfileExport axes points.now knots.now told.old result told.new }
{
    if let Err(refusal) = check_even_profile(axes, points, knots, told) {
        return tell_none(told, refusal);
    }
    match query_profile::even_profile_of_points(axes, points, knots) {
        Ok(()) => {
            store_told(told, 0, 0);
            0
        }
        Err(ProfileRefusal::Refused(refusal)) => tell_none(told, refusal),
        Err(ProfileRefusal::NotFinite(lack)) => tell_lack(told, Refusal::Number, lack),
        Err(ProfileRefusal::NotRising(lack)) => tell_lack(told, Refusal::Knots, lack),
        Err(ProfileRefusal::Uneven(lack)) => tell_lack(told, Refusal::Uneven, lack),
    }
}
