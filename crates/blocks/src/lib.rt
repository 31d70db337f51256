// The cells of a row in a block of lines, one after the other, that are calculated together: each follower is looked up once for all of them.
#![tactic(auto)]

pub mod amount;
pub mod interval;

// How many lines are calculated together.
pub const BLOCK: usize = 8;
