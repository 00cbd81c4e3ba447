// What exports need before and after their calls: the refusals of the host's own, and the slots that answers go to.

#![tactic(auto)]

pub mod own; // own.rt: the host's own refusals, before the call's
pub mod slots; // slots.rt: the slots that answers go to
