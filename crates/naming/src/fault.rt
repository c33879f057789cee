use image::fault::Fault;
use rules::rule::NamingRule;

// A broken rule of the naming pass, and the place of the word that breaks it.
pub type NamingFault = Fault<NamingRule>;
