// The calls for C and Rust: numbers, records and slices. capi/kelfhoam.h declares them.
#![tactic(auto)]

pub mod load;
pub mod redumping;
pub mod told;
pub mod write;
