// The secrecy promise and its proof. Two boxes go through one list of calls, with jobs that differ only in what a reader may not see:
// after each call the reader has seen no more of them than he may. The functions here carry the theorems, those of the promise in
// `promises`, and in `checks` those that show that it says something.
#![tactic(auto)]

pub mod checks;
pub mod promises;
