// The fixed list of the oracle's cases: its words, what a case's arguments are given and what stands in them afterwards. No list makes a
// function here trap.

#![tactic(auto)]

pub mod arguments; // arguments.rt: what each call takes, and where a case has it
pub mod items; // items.rt: the items of a slice
pub mod words; // words.rt: words of the list, and places in it
