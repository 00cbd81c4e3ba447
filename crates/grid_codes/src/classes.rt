// The classes of refusals, decided by their numbers: what a refusal of the reader, of the build or of the writer means for the sheet at
// hand.
ghost use Rattle.std.specs.Prelude.{◌≡◌};
ghost use Rattle.grid_codes.specs.Classes.{class, built, unread, length_known};

// None: the sheet was read and built.
// Reading: it was not read. Nothing of it shows, and its length is known after 14 alone.
// Building: it was read, and its parts stand in the buffers. What it says is not built.
// Writing: its parts are those of a sheet, and it is not written.
// Unknown: no refusal of a sheet that is read, built or written has the number.
#[derive(Clone, Copy)]
pub enum Class {
    None,
    Reading,
    Building,
    Writing,
    Unknown,
}

// The class of a refusal's number: it refuses nothing.
pub fn class_of(refusal: usize) -> Class
    ensures { result ≡ class refusal }
{
    match refusal {
        0 => Class::None,
        1..=4 | 11..=14 | 22 => Class::Reading,
        5..=10 => Class::Building,
        15 | 23 => Class::Writing,
        _ => Class::Unknown,
    }
}

// Whether a sheet of this refusal was read and built: it refuses nothing.
pub fn is_built(refusal: usize) -> bool
    ensures { result ≡ built (class refusal) }
{
    matches!(class_of(refusal), Class::None)
}

// Whether a sheet of this refusal was not read: it refuses nothing.
pub fn is_unread(refusal: usize) -> bool
    ensures { result ≡ unread (class refusal) }
{
    matches!(class_of(refusal), Class::Reading)
}

// Whether the length of a sheet that the reader refuses by this number, or does not refuse, is known: it refuses nothing.
pub fn is_length_known(refusal: usize) -> bool
    ensures { result ≡ length_known refusal }
{
    matches!(refusal, 0 | 14)
}
