// Why the naming pass and the flow pass refuse an image, in sentences that show the values that clash, so that a setter can mend it.
#![tactic(auto)]

mod flows;
mod names;

pub use flows::FlowRefusal;
pub use names::NamingRefusal;
