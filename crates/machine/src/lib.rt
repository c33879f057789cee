// The erased machine: what a programme does word by word, with no label, context or type in sight. The cells are laid from the image
// and a job, and a run then goes on them until the programme halts, the fuel is spent or the strip is full. Beside it stand the
// definitions of a box and its two calls, load and run.
#![tactic(auto)]

pub mod lay;
mod memory;
pub mod ran;
pub mod run;
pub mod runnable;
pub mod strike;
mod turn;
mod types;
mod words;
