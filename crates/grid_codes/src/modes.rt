// The modes of the axes, by their numbers.
ghost use Rattle.std.specs.Prelude.{◌≡◌, eqb};
ghost use Rattle.rules.specs.Outside.{mode_number};
ghost use Rattle.rules.specs.declared.Mode.TheVariants.{Hold, Refuse};
ghost use Rattle.grid_codes.specs.Modes.{unknown_mode, mode_of_number};

use rules::Mode;

// Whether there is no such mode: it refuses nothing.
pub fn is_unknown_mode(number: u64) -> bool
    ensures { result ≡ unknown_mode number }
{
    !matches!(number, 0..=2)
}

// The mode of a number: it refuses nothing, and takes any other number for Extend.
pub fn mode_of_number(number: u64) -> Mode
    ensures { result ≡ mode_of_number number }
{
    match number {
        1 => Mode::Hold,
        2 => Mode::Refuse,
        _ => Mode::Extend,
    }
}

// Whether a number is that of Hold: it refuses nothing. A query asks this and the next in place of the mode, which would cost it more.
pub fn is_hold(number: u8) -> bool
    ensures { result ≡ eqb number (mode_number Hold) }
{
    number == 1
}

// Whether a number is that of Refuse: it refuses nothing.
pub fn is_refuse(number: u8) -> bool
    ensures { result ≡ eqb number (mode_number Refuse) }
{
    number == 2
}

// The number of a mode: it refuses nothing.
pub fn mode_number(mode: Mode) -> u8
    ensures { result ≡ mode_number mode }
{
    match mode {
        Mode::Extend => 0,
        Mode::Hold => 1,
        Mode::Refuse => 2,
    }
}
