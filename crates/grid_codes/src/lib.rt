// What the numbers of kinds, modes, editions and refusals mean, decided by their ranges. Reader, writer, report, printer, queries and
// exports share it.

#![tactic(auto)]

pub mod ends; // ends.rt: the kinds of the two ends of an axis, and the condition that they are
pub mod modes; // modes.rt: the modes of axes
pub mod editions; // editions.rt: the editions of a packed sheet
pub mod classes; // classes.rt: the classes of refusals
