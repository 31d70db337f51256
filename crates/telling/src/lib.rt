// What is printed for the questions about demand, in cells and an area that are lent: at an interval, for an amount, and up to a horizon.
#![tactic(auto)]

mod at;
mod curve;
mod shortest;

pub use at::tell_at;
pub use curve::{rows_of, tell_curve};
pub use shortest::tell_shortest;
