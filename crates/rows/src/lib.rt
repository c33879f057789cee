// A short row of values in a fixed array, which grows and shrinks at its front.
#![tactic(auto)]

mod row;

pub use row::Row;
