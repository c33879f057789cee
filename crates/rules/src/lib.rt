// The rules of programme images, from words to verdict. The definitions say what a laid out image's items mean as a programme, what
// the naming pass and the flow pass find in it, and, beside the passes, what it is to meet every rule. The functions here compare
// types and contexts as the rules do, and carry the theorems that tie passes and rules together.
#![tactic(auto)]

pub mod promises;
pub mod rule;
pub mod types;
