// What each call does once its sheet is accepted, its number is in range and its room is enough.
ghost use Rattle.std.specs.Prelude.{◌≡◌, ◌+◌, ◌^◌, ◌≤◌, ◌<◌, pos, ◌-ℤ◌, length};
ghost use Rattle.meaning.specs.Demand.{longest_time};
ghost use Rattle.beginning.specs.Beginning.{room_for};
ghost use Rattle.desk.specs.Calls.{DemandAnswers, ShortestAnswers};
ghost use Rattle.desk.specs.Found.{MarginFound, VerdictFound};
ghost use Rattle.desk.specs.WhichTable.{filled_by};

use crate::Attained;
use beginning::accepted::AcceptedSheet;
use fields::refusal::{Reason, Refusal};
use filling::{Fillable, fill};
use overruns::sweep::{Sweepable, sweep};
use overruns::tasks::FixedTasks;
use tables::amount::{NO_TIME, shortest_of};
use tables::interval::demand_of;
use tables::{ByAmount, ByInterval};
use witness::show_witness;

// The table by interval, then the largest cell of its last line and the witness, or rule 13.
pub(crate) fn demand_in(
    sheet: &AcceptedSheet,
    t: usize,
    cells: &mut [u32],
    area: &mut [u8],
) -> Result<Attained, Refusal>
    requires in_range { t ≤ longest_time }
    requires room { room_for sheet.now.bytes.now (t + 1) ≤ length cells.old }
    ensures { DemandAnswers sheet.now.bytes.now t cells.old area.old result cells.new area.new }
{
    let rows = sheet.rows();
    fill::<ByInterval>(&rows, cells, t + 1);
    let amount = demand_of(cells, rows.count, t);
    let count = show_witness(&rows, cells, t, area)?;
    Ok(Attained { amount, count })
}

// The table by interval, then what both demands leave of the interval.
pub(crate) fn margin_in(sheet: &AcceptedSheet, t: usize, cells: &mut [u32]) -> i64
    requires in_range { t ≤ longest_time }
    requires room { room_for sheet.now.bytes.now (t + 1) ≤ length cells.old }
    ensures { MarginFound sheet.now.bytes.now t cells.old result cells.new }
{
    let rows = sheet.rows();
    fill::<ByInterval>(&rows, cells, t + 1);
    let engine = demand_of(cells, rows.count, t) as u64;
    let fixed = FixedTasks::new(sheet.head.tasks, sheet.head.tally.tasks).demand_at(t);
    less(t as u64, engine + fixed)
}

// The table by amount, then the smallest time of its last line; rule 14 where it has none.
pub(crate) fn shortest_in(
    sheet: &AcceptedSheet,
    amount: usize,
    cells: &mut [u32],
) -> Result<u32, Refusal>
    requires some { 1 ≤ amount }
    requires in_range { amount ≤ longest_time + 1 }
    requires room { room_for sheet.now.bytes.now amount ≤ length cells.old }
    ensures { ShortestAnswers sheet.now.bytes.now amount cells.old result cells.new }
{
    let rows = sheet.rows();
    fill::<ByAmount>(&rows, cells, amount);
    let time = shortest_of(cells, rows.count, amount);
    if time == NO_TIME {
        return Err(Refusal::from(Reason::NeverReached));
    }
    Ok(time)
}

// All lines of a table, then the first interval that they show to be overrun.
pub(crate) fn verdict_in<T: Fillable + Sweepable>(
    sheet: &AcceptedSheet,
    horizon: usize,
    cells: &mut [u32],
) -> Option<u64>
    requires in_range { horizon ≤ longest_time }
    requires room { room_for sheet.now.bytes.now (horizon + 1) ≤ length cells.old }
    ensures { VerdictFound (filled_by T.right) sheet.now.bytes.now horizon cells.old result cells.new }
{
    let rows = sheet.rows();
    fill::<T>(&rows, cells, horizon + 1);
    let tasks = FixedTasks::new(sheet.head.tasks, sheet.head.tally.tasks);
    let overrun = sweep::<T>(&tasks, rows.count, cells, horizon)?;
    Some(overrun as u64)
}

// A difference with its sign.
fn less(first: u64, second: u64) -> i64
    requires { (first < 2 ^ 63) × (second < 2 ^ 63) }
    ensures { result ≡ pos first -ℤ pos second }
{
    first as i64 - second as i64
}
