// Editions on a box: an edition is a list of jobs for one image. `print_edition` runs them and prints a record of each; `compare_editions`
// runs two editions on two boxes and prints what a reader sees on each side. What they know of boxes, readers and lines is in the libraries
// below, with contracts; what is read and printed has none.
#![tactic(auto)]

mod calls;
mod compare;
mod failure;
mod files;
mod lines;
mod print;
mod record;

pub use compare::compare_editions;
pub use failure::Failure;
pub use files::{bytes_of, image_of};
pub use print::print_edition;
