// The tables of cells, by interval and by amount: one cell of them, and what stands in one line.
#![tactic(auto)]

pub mod amount;
pub mod interval;
pub mod rows;
pub mod walk;

ghost use Rattle.std.specs.Prelude.{ℕ};
ghost use Rattle.meaning.specs.Graph.{Graph};
ghost use Rattle.meaning.specs.Cells as cells;

// A table, by what its cells are right for: `right graph line k v` says it of the value v of row k in a line.
pub trait Table {
    ghost right: { Graph → ℕ → ℕ → ℕ → Type 0 };
}

// The table by interval, and the table by amount. They are types alone: no value of them is made.
#[derive(Clone, Copy)]
pub struct ByInterval;

#[derive(Clone, Copy)]
pub struct ByAmount;

impl Table for ByInterval {
    ghost right = { cells.ByInterval };
}

impl Table for ByAmount {
    ghost right = { cells.ByAmount };
}
