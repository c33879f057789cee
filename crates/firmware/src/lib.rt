// The box for firmware: C functions over boxes of fixed kinds, for a static library. A box lies in the caller's memory and nothing is
// allocated. Zero bytes are an empty box, so that memory that C has cleared can be handed in.
#![tactic(auto)]

mod exports;
mod numbers;

pub use exports::{
    MastheadBox, StageBox, StageMastheadBox, imprint_mastheads_load, imprint_mastheads_make,
    imprint_mastheads_run, imprint_stage_load, imprint_stage_make, imprint_stage_mastheads_load,
    imprint_stage_mastheads_make, imprint_stage_mastheads_run, imprint_stage_run,
};
pub use numbers::{Fault, Report};
