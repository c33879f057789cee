// The naming pass over a laid out image: each word names only what is there, and each code that stands for a label is one.
#![tactic(auto)]

mod behind;
mod check;
pub mod fault;
mod headed;
mod item;
mod names;
mod start;
mod word;

pub use check::check_names;
