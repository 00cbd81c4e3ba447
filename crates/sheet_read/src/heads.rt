// The head of an axis: how many points it has, the kinds of its ends, and the number of its mode. It is read once, and what follows from it
// is worked out from it alone. None of these is a public call: `head_at` requires that the bits are there, and the number of bits that the
// mode has in the sheet's edition; the last two require places that are small numbers.
ghost use Rattle.std.specs.Prelude.{◌≡◌, ◌+◌, ◌*◌};
ghost use Rattle.base_bits.specs.BitsThere.{Within};
ghost use Rattle.sheet_read.specs.Fields.{mode_bits};
ghost use Rattle.sheet_read.specs.Heads.{HeadOf, values_of_head, knots_of_head, SmallHead};

use base_bits::field_at;
use grid_codes::ends::values_of_kind;

#[derive(Clone, Copy)]
pub struct Head {
    pub points: usize,
    pub lower: u64,
    pub upper: u64,
    pub mode: u64,
}

// The head of the axis at bit `at`.
pub fn head_at(bytes: &[u8], width: usize, at: usize) -> Head
    requires { (width ≡ mode_bits bytes.now) × Within bytes.now at (12 + width) }
    ensures { HeadOf bytes.now at result }
{
    Head {
        points: field_at(bytes, at, 8) as usize + 1,
        lower: field_at(bytes, at + 8, 2),
        upper: field_at(bytes, at + 10, 2),
        mode: field_at(bytes, at + 12, width),
    }
}

// How many patterns the ends have.
pub fn values(head: Head) -> usize
    ensures { result ≡ values_of_head head }
{
    values_of_kind(head.lower) + values_of_kind(head.upper)
}

// Where the knots of the axis at bit `at` begin.
pub fn knots_from(width: usize, at: usize, head: Head) -> usize
    requires { SmallHead width at head }
    ensures { result ≡ knots_of_head width at head }
{
    at + 12 + width + 64 * values(head)
}

// The bit after the axis at bit `at`.
pub fn after(width: usize, at: usize, head: Head) -> usize
    requires { SmallHead width at head }
    ensures { result ≡ knots_of_head width at head + 64 * head.points }
{
    knots_from(width, at, head) + 64 * head.points
}
