// What a sheet is made of: speeds and times, the values and their limits, the field table, the field reader's step, and why a sheet is refused.
#![tactic(auto)]

pub mod reader;
pub mod refusal;
pub mod table;
pub mod units;
pub mod values;
