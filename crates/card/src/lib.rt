// Exercise cards: 32 bytes to a call of the machine, one card's step.
// Machine, memory and card come one by one to each step, since the host lends each by itself.
#![tactic(auto)]

pub mod decode;
pub mod lent;
pub mod probe;
pub mod value;
