// What each call takes, in a table, and where the list has it for a case.
ghost use Rattle.std.specs.Prelude.{◌≤◌};

use crate::items::{Held, after_given, after_left, given, is_left, length_at};
use crate::words::{after, word};

// A place past any list: what would stand there is an empty slice, and nothing is left in it.
const PAST: usize = 4294967296;

// Room for the longest slice of the list: of floats, of whole numbers and of bytes.
pub const FLOATS: usize = 8192;

pub const NUMBERS: usize = 32;

pub const BYTES: usize = 512;

// What stands behind the arguments of a call.
const END: u8 = b' ';

// The arguments of each call in their order: 0 to 4 are words, a to e slices of floats, n to q of whole numbers, x to z of bytes, and the
// letter is a capital where the call may write the slice. A number that no call has takes nothing.
fn letters_of(call: u64) -> [u8; 12] {
    match call {
        0 => *b"0abxcDE     ",
        1 => *b"0abc1D      ",
        2 => *b"0abcD       ",
        3 => *b"0nxabcDE    ",
        4 => *b"0nxabDEo1P  ",
        5 => *b"0nxabcDO    ",
        6 => *b"xABNOYCZP   ",
        7 => *b"xABNOYCZPDEQ",
        8 => *b"0nxabcDO    ",
        9 => *b"0nxabcDOP   ",
        10 => *b"0nxaybc1ZO  ",
        11 => *b"0a12O       ",
        12 => *b"0a1OD       ",
        13 => *b"0a12O       ",
        14 => *b"0nxabcDO    ",
        15 => *b"01234O      ",
        16 => *b"xOP         ",
        17 => *b"xABNOYC     ",
        18 => *b"x0123       ",
        19 => *b"0nxabcEPQ   ",
        20 => *b"0nxabcDO    ",
        21 => *b"0nxabcDOP   ",
        22 => *b"0nxabcDOP   ",
        23 => *b"0naO        ",
        24 => *b"0nxabcDOP   ",
        _ => [END; 12],
    }
}

// The small letter of a capital.
fn small(letter: u8) -> u8 {
    match letter {
        b'A'..=b'Z' => letter + 32,
        _ => letter,
    }
}

// The place after an argument.
fn after_argument(list: &[u8], letter: u8, place: usize) -> usize {
    if letter == END {
        return place;
    }
    if letter < b'A' {
        after(place, 1)
    } else {
        after_given(list, place)
    }
}

// An argument of a case: its letter, where the list has what it is given, and where what it is left with, if it is written.
#[derive(Clone, Copy)]
pub struct Argument {
    pub letter: u8,
    pub given: usize,
    pub left: usize,
}

impl Argument {
    // The next argument's places, behind a letter.
    fn next(self, list: &[u8], letter: u8) -> Argument {
        Argument {
            letter: END,
            given: after_argument(list, letter, self.given),
            left: if small(letter) == letter {
                self.left
            } else {
                after_left(list, self.left)
            },
        }
    }

    // What a slice is given: nothing where the call has no such argument.
    fn place(self) -> usize {
        if self.letter == END { PAST } else { self.given }
    }

    // What it is left with: where the call does not write it, what it was given.
    fn place_left(self) -> usize {
        if small(self.letter) == self.letter {
            PAST
        } else {
            self.left
        }
    }
}

// The argument of a small letter, counted from a first one on; behind the last where there is none.
fn found(list: &[u8], letters: [u8; 12], first: Argument, wanted: u8) -> Argument {
    let mut argument = first;
    for letter in letters {
        if small(letter) == wanted {
            return Argument { letter, ..argument };
        }
        argument = argument.next(list, letter);
    }
    argument
}

// A case: the number of its call, the letters of its arguments, where they begin, and where they end in what the call returns.
#[derive(Clone, Copy)]
pub struct Case {
    pub call: u64,
    pub letters: [u8; 12],
    pub begin: usize,
    pub answer: usize,
}

impl Case {
    // The case at a place.
    pub fn at(list: &[u8], place: usize) -> Case {
        let call = word(list, place);
        let letters = letters_of(call);
        let begin = after(place, 1);
        let first = Argument {
            letter: END,
            given: begin,
            left: begin,
        };
        let last = found(list, letters, first, END);
        Case {
            call,
            letters,
            begin,
            answer: last.given,
        }
    }

    // The argument of a letter, and the place after the case.
    fn argument(self, list: &[u8], letter: u8) -> Argument {
        let first = Argument {
            letter: END,
            given: self.begin,
            left: after(self.answer, 1),
        };
        found(list, self.letters, first, letter)
    }

    pub fn next(self, list: &[u8]) -> usize {
        self.argument(list, END).left
    }

    // Whether a call has its number.
    pub fn is_known(self) -> bool {
        self.letters[0] != END
    }

    // A word, and all of them.
    fn word(self, list: &[u8], letter: u8) -> u64 {
        let argument = self.argument(list, letter);
        word(list, argument.place())
    }

    pub fn words(self, list: &[u8]) -> [u64; 5] {
        [
            self.word(list, b'0'),
            self.word(list, b'1'),
            self.word(list, b'2'),
            self.word(list, b'3'),
            self.word(list, b'4'),
        ]
    }

    // The slice of a letter in an array with room for the longest of the list, how long it is, and whether one stands as the list says.
    pub fn slice<T: Held, const ROOM: usize>(self, list: &[u8], letter: u8) -> [T; ROOM] {
        let argument = self.argument(list, letter);
        given(list, argument.place())
    }

    pub fn length<const ROOM: usize>(self, list: &[u8], letter: u8) -> usize
        ensures { result ≤ ROOM }
    {
        let argument = self.argument(list, letter);
        length_at::<ROOM>(list, argument.place())
    }

    pub fn stands<T: Held>(self, list: &[u8], letter: u8, slice: &[T]) -> bool {
        let argument = self.argument(list, letter);
        is_left(list, argument.place(), argument.place_left(), slice)
    }
}
