// Numbers and bytes: bits and fields of a number, little-endian loads and stores on lent bytes.
#![tactic(auto)]

pub mod bits;
pub mod bytes;
