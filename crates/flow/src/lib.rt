// The flow pass of programme images: each block is walked from its own signature, with the context and the types that are known before
// each instruction, and the first broken rule is answered.
#![tactic(auto)]

mod fault;
mod pass;
mod stuck;
mod walk;

pub use fault::FlowFault;
pub use pass::check_flow;
pub use stuck::{Stuck, stuck_at};
