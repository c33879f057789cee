use image::fault::Fault;
use rules::rule::FlowRule;

// A broken rule of the flow pass, and the place of the word that breaks it.
pub type FlowFault = Fault<FlowRule>;
