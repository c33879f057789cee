// Label kinds. A kind has a few labels, codes from 0 up, with an order and a join; it answers how many labels it has,
// whether one label is at or below another, and the join of two. Every kind meets the laws of the trait `LabelKind`,
// so code that is handed any kind can rely on them. Here are the stages, the masthead sets, and the pair of any two kinds.
#![tactic(auto)]

mod kind;
mod laws;
mod masthead;
mod pair;
mod stage;

pub use kind::LabelKind;
pub use laws::{is_flat, pair_counts, same_join, worked_pair};
pub use masthead::MastheadSet;
pub use pair::Pair;
pub use stage::Stage;
