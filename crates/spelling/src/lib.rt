// The state as 128 bytes: the spelling of a state, and the state that bytes spell.
#![tactic(auto)]

pub mod load;
pub mod save;
mod spelled;
