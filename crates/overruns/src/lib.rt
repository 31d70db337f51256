// Fixed demand, and the first interval up to a horizon that is overrun.
#![tactic(auto)]

pub mod running;
pub mod sweep;
pub mod tasks;
