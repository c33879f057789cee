// Programme images as words: what a word says, how it is written, and where it may stand.
#![tactic(auto)]

pub mod counts;
pub mod fault;
pub mod head;
pub mod instruction;
pub mod item;
pub mod items;
pub mod layout;
pub mod rule;
pub mod section;
mod stand;
pub mod survey;
pub mod ty;
pub mod word;
