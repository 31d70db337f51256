// The steps of a curve: up to which horizon they are read, and at which intervals the engine's demand, or fixed demand, rises.
#![tactic(auto)]

ghost use Rattle.std.specs.Prelude.{◌+◌, ◌*◌, ◌≤◌, min, ◌≡◌, length};
ghost use Rattle.meaning.specs.Demand.{longest_time};
ghost use Rattle.meaning.specs.Fixed.{fixed_of, fixed_sum};
ghost use Rattle.sheet.specs.Meaning.{times_of};
ghost use Rattle.sheet.specs.Proper.{ProperTask};
ghost use Rattle.tables.specs.Lines.{demand_in};
ghost use Rattle.overruns.specs.Releases.{counted_tasks};
ghost use Rattle.steps.specs.Rising.{IsHorizon, IsNextRise};

use fields::values::{Sheet, Task};
use overruns::tasks::{FixedTasks, first_due};
use tables::interval::demand_of;

// The largest horizon whose lines fit a number of cells.
pub fn horizon_of(cells: usize, rows: usize) -> usize
    requires some_rows { 1 ≤ rows }
    requires one_line { rows ≤ cells }
    ensures { IsHorizon cells rows result }
{
    let lines = cells / rows;
    (lines - 1).min(Sheet::TICKS.0 as usize)
}

// The first interval from one on at which the engine's demand rises, one past the horizon where there is none: `IsNextRise`, which docs/PROMISES.md names, has it so, and the loop that prints ends by it.
pub fn next_rise(cells: &[u32], rows: usize, horizon: usize, from: usize) -> usize
    requires in_range { horizon ≤ longest_time }
    requires room { rows * (horizon + 1) ≤ length cells.now }
    requires from_inside { (1 ≤ from) × (from ≤ horizon + 1) }
    ensures { IsNextRise (demand_in rows cells.now) horizon from result }
{
    let mut last = demand_of(cells, rows, from - 1);
    for interval in from..=horizon {
        let amount = demand_of(cells, rows, interval);
        if last < amount {
            return interval;
        }
        last = amount;
    }
    horizon + 1
}

// The same for the demand of the fixed tasks: the soonest of where the demand of each rises.
pub fn next_fixed_rise(tasks: &FixedTasks, horizon: usize, from: usize) -> usize
    requires in_range { horizon ≤ longest_time }
    requires from_inside { (1 ≤ from) × (from ≤ horizon + 1) }
    ensures { IsNextRise (fixed_sum (counted_tasks tasks.now.tasks tasks.now.count)) horizon from result }
{
    let mut next = horizon + 1;
    for number in 0..tasks.count {
        next = next.min(next_due(tasks.task(number), horizon, from));
    }
    next
}

// The same for the demand of one fixed task, which rises where its first job falls due, and a period after each one.
fn next_due(task: Task, horizon: usize, from: usize) -> usize
    requires proper_task { ProperTask task }
    requires in_range { horizon ≤ longest_time }
    requires from_inside { (1 ≤ from) × (from ≤ horizon + 1) }
    ensures { IsNextRise (fixed_of (times_of task)) horizon from result }
{
    let first = first_due(task.deadline, task.jitter);
    if from <= first {
        return first.min(horizon + 1);
    }
    let period = task.period.0 as usize;
    let jobs = (from - first - 1) / period + 1;
    (first + jobs * period).min(horizon + 1)
}
