// What is known before an instruction of a block: the flow context, and the types of registers and slots; whether a state
// fits where control goes, and the parts of a programme that this asks for.
#![tactic(auto)]

mod fit;
pub mod lookup;
pub mod promise;
pub mod state;
