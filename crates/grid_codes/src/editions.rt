// The editions of a packed sheet, by their numbers.
ghost use Rattle.std.specs.Prelude.{◌≡◌};
ghost use Rattle.grid_codes.specs.Editions.{unknown_edition, mode_width, mode_refused};

use crate::modes::mode_number;
use rules::Mode;

// Whether there is no such edition: it refuses nothing.
pub fn is_unknown_edition(edition: usize) -> bool
    ensures { result ≡ unknown_edition edition }
{
    !matches!(edition, 1..=2)
}

// How many bits the mode of an axis has in an edition: it refuses nothing.
pub fn mode_width(edition: usize) -> usize
    ensures { result ≡ mode_width edition }
{
    match edition {
        2 => 2,
        _ => 0,
    }
}

// Whether a mode is refused by 23: edition 1 has no bits for it, and it is not extend.
pub fn mode_refused(edition: usize, mode: Mode) -> bool
    ensures { result ≡ mode_refused edition mode }
{
    edition == 1 && mode_number(mode) != 0
}
