// The items of a slice, as the list has them, and as a call leaves them.
ghost use Rattle.std.specs.Prelude.{◌≤◌};

use crate::words::{after, held, word};

// The words of the list from a place on, or an item and the step to the next.
#[derive(Clone, Copy)]
enum Items {
    Words { place: usize },
    Counted { item: u64, step: u64 },
}

impl Items {
    // Counted up from a first word by a step.
    fn counted(list: &[u8], place: usize) -> Items {
        Items::Counted {
            item: word(list, place),
            step: word(list, after(place, 1)),
        }
    }

    // The items that a slice at a place is given: a length, a form and what the form wants.
    fn given(list: &[u8], place: usize) -> Items {
        if word(list, after(place, 1)) == 0 {
            Items::Words {
                place: after(place, 2),
            }
        } else {
            Items::counted(list, after(place, 2))
        }
    }

    // The first of them.
    fn item(self, list: &[u8]) -> u64 {
        match self {
            Items::Words { place } => word(list, place),
            Items::Counted { item, .. } => item,
        }
    }

    // Those behind the first.
    fn next(self) -> Items {
        match self {
            Items::Words { place } => Items::Words {
                place: after(place, 1),
            },
            Items::Counted { item, step } => Items::Counted {
                item: std::num::wrapping_add_u64(item, step),
                step,
            },
        }
    }
}

// The place after a slice that is given.
pub fn after_given(list: &[u8], place: usize) -> usize {
    if word(list, after(place, 1)) == 0 {
        after(after(place, 2), word(list, place) as usize)
    } else {
        after(place, 4)
    }
}

// The place after a slice as it is left: a form and what it wants.
pub fn after_left(list: &[u8], place: usize) -> usize {
    if word(list, place) == 0 {
        after(after(place, 2), word(list, after(place, 1)) as usize)
    } else {
        after(place, 3)
    }
}

// The items of a slice as it is left: so many of its own at the front, and behind them those that it was given.
#[derive(Clone, Copy)]
struct Left {
    own: u64,
    front: Items,
    given: Items,
}

impl Left {
    // The items that the slice given at a place is left with, by what stands at another.
    fn at(list: &[u8], given: usize, place: usize) -> Left {
        let given = Items::given(list, given);
        if word(list, place) == 0 {
            Left {
                own: word(list, after(place, 1)),
                front: Items::Words {
                    place: after(place, 2),
                },
                given,
            }
        } else {
            Left {
                own: u64::MAX,
                front: Items::counted(list, after(place, 1)),
                given,
            }
        }
    }

    // The first of them.
    fn item(self, list: &[u8]) -> u64 {
        if self.own == 0 {
            self.given.item(list)
        } else {
            self.front.item(list)
        }
    }

    // Those behind the first.
    fn next(self) -> Left {
        Left {
            own: self.own.saturating_sub(1),
            front: self.front.next(),
            given: self.given.next(),
        }
    }
}

// What a slice holds: how it is made of an item of the list, and whether an item says it.
pub trait Held: Copy {
    fn of(item: u64) -> Self;

    fn is_said_by(self, item: u64) -> bool;
}

// A float by its pattern; every pattern of a NaN is one to a NaN.
impl Held for f64 {
    fn of(item: u64) -> f64 {
        base_numbers::float_of(item)
    }

    fn is_said_by(self, item: u64) -> bool {
        if base_numbers::is_finite(self) {
            return base_numbers::pattern_of(self) == item;
        }
        let said = base_numbers::float_of(item);
        self == said || (self.is_nan() && said.is_nan())
    }
}

// A whole number.
impl Held for usize {
    fn of(item: u64) -> usize {
        item as usize
    }

    fn is_said_by(self, item: u64) -> bool {
        self as u64 == item
    }
}

// A byte, made of an item's lowest 8 bits.
impl Held for u8 {
    fn of(item: u64) -> u8 {
        (item % 256) as u8
    }

    fn is_said_by(self, item: u64) -> bool {
        u64::from(self) == item
    }
}

// The slice that is given at a place, in an array with room for the longest of the list.
pub fn given<T: Held, const ROOM: usize>(list: &[u8], place: usize) -> [T; ROOM] {
    let mut items = Items::given(list, place);
    let mut slice = [T::of(0); ROOM];
    for x in &mut slice {
        *x = T::of(items.item(list));
        items = items.next();
    }
    slice
}

// How long the slice at a place is.
pub fn length_at<const ROOM: usize>(list: &[u8], place: usize) -> usize
    ensures { result ≤ ROOM }
{
    held(word(list, place), ROOM)
}

// Whether a slice is as the list says that it is left.
pub fn is_left<T: Held>(list: &[u8], given: usize, place: usize, slice: &[T]) -> bool {
    let mut items = Left::at(list, given, place);
    for x in slice {
        if !x.is_said_by(items.item(list)) {
            return false;
        }
        items = items.next();
    }
    true
}
