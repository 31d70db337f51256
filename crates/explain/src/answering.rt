// What `explain` does once its sheet is accepted, its horizon is in range and its room is enough.
ghost use Rattle.std.specs.Prelude.{◌≡◌, ◌+◌, ◌*◌, ◌≤◌, ◌<◌, length};
ghost use Rattle.meaning.specs.Demand.{longest_time};
ghost use Rattle.meaning.specs.Fixed.{fixed_sum};
ghost use Rattle.tables.specs.Lines.{demand_in};
ghost use Rattle.overruns.specs.Releases.{counted_tasks};
ghost use Rattle.beginning.specs.Beginning.{room_for};
ghost use Rattle.explain.specs.Reasons.{Sums};
ghost use Rattle.explain.specs.Calls.{ExplainAnswers};
ghost use Rattle.explain.specs.Looking.{ToldAt};

use crate::demands::demands_at;
use crate::looking::{Tightest, look_over};
use crate::{Cause, Explained, Overrun};
use beginning::accepted::AcceptedSheet;
use fields::refusal::Refusal;
use filling::fill;
use overruns::tasks::FixedTasks;
use tables::ByInterval;
use tables::interval::demand_of;
use witness::show_witness;

// The whole table by interval, also behind an overrun, then one pass over its lines.
pub(crate) fn explain_in(
    sheet: &AcceptedSheet,
    horizon: usize,
    cells: &mut [u32],
    area: &mut [u8],
) -> Result<Explained, Refusal>
    requires in_range { horizon ≤ longest_time }
    requires room { room_for sheet.now.bytes.now (horizon + 1) ≤ length cells.old }
    ensures { ExplainAnswers sheet.now.bytes.now horizon cells.old area.old result cells.new area.new }
{
    let rows = sheet.rows();
    let tasks = FixedTasks::new(sheet.head.tasks, sheet.head.tally.tasks);
    fill::<ByInterval>(&rows, cells, horizon + 1);
    match look_over(&tasks, rows.count, cells, horizon) {
        Tightest::Nothing => Ok(Explained::NoInterval),
        Tightest::Margin { margin, interval } => Ok(Explained::Holds {
            margin,
            interval: interval as u64,
        }),
        Tightest::Overrun { interval, fixed } => {
            let count = show_witness(&rows, cells, interval, area)?;
            Ok(Explained::Fails(overrun_at(&tasks, rows.count, interval, fixed, cells, count)))
        }
    }
}

// The numbers of an overrun at t whose witness has so many rows.
fn overrun_at(
    tasks: &FixedTasks,
    n: usize,
    t: usize,
    fixed: u64,
    cells: &[u32],
    count: usize,
) -> Overrun
    requires in_range { t ≤ longest_time }
    requires room { n * (t + 1) ≤ length cells.now }
    requires fixed_demand { fixed ≡ fixed_sum (counted_tasks tasks.now.tasks tasks.now.count) t }
    requires overrun { t < demand_in n cells.now t + fixed }
    ensures { ToldAt n tasks.now.tasks tasks.now.count cells.now t fixed count result }
{
    let engine = demand_of(cells, n, t);
    let demands = demands_at(tasks, t);
    Overrun {
        interval: t as u64,
        cause: cause_of(t as u64, engine as u64, fixed),
        engine,
        demands,
        excess: engine as u64 + fixed - t as u64,
        count,
    }
}

// The cause of an overrun at t.
fn cause_of(t: u64, engine: u64, fixed: u64) -> Cause
    requires { t < engine + fixed }
    ensures { Sums result t engine fixed }
{
    if t < engine {
        return Cause::Engine;
    }
    if t < fixed {
        return Cause::Fixed;
    }
    Cause::Together
}
