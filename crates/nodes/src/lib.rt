// The page of a node of a B+ tree: what its bytes say, where keys stand in it, how it is made. The definitions are in specs/.
#![tactic(auto)]

pub mod build;
pub mod laws;
pub mod numbers;
pub mod places;
mod raw;
pub mod read;
