// The box: made for one label kind, it takes images, refuses each that breaks a rule, and keeps the latest one that it accepted.
#![tactic(auto)]

pub mod fault;
pub mod imprint_box;
pub mod store;
