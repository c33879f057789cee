// An image that the layout pass takes, the parts of its programme by their numbers, and what the words in them say.
#![tactic(auto)]

pub mod decode;
pub mod laid_out;
pub mod parts;
