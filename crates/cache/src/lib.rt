// A write-back cache of pages: pages again, over any pages, with frames of lent memory. What it is, and what is promised of it, stands in the crate `caching`; here is its code.
#![tactic(auto)]

mod back;
pub mod cached;
mod frames;
mod looks;
pub mod open;
mod puts;
pub mod serve;
