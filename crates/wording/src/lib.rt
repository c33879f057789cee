// Images in words that a setter understands: the listing of items, and the sentence of a refusal.
//
// Each struct here holds a value and shows it by its `Display`.
#![tactic(auto)]

mod listing;
mod nouns;
mod refusal;
mod terms;
mod verdict;

pub use listing::{ItemLines, Summary};
pub use nouns::{Noun, Several};
pub use refusal::LayoutRefusal;
pub use terms::{ContextText, InstructionText, TypeText};
pub use verdict::LayoutVerdict;
