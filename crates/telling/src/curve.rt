// The curve up to a horizon, and for a chart also where fixed demand rises.
ghost use Rattle.std.specs.Prelude.{◌≤◌, ◌≡◌, length};
ghost use Rattle.meaning.specs.Demand.{longest_time};
ghost use Rattle.sheet.specs.Judging.{judged};
ghost use Rattle.sheet.specs.Answer.{Accepted};
ghost use Rattle.beginning.specs.Beginning.{rows};
ghost use Rattle.printing.specs.Refusals.{RoomToInterval};
ghost use Rattle.telling.specs.Told.{CurveTold};

use desk::verdict_by_interval;
use fields::refusal::Refusal;
use overruns::tasks::FixedTasks;
use printing::{print_curve, print_rises, print_verdict};
use sheet::judge;
use std::io;
use steps::next_fixed_rise;

pub fn tell_curve(
    rt: &impl Print,
    bytes: &[u8],
    horizon: u64,
    cells: &mut [u32],
    with_fixed: bool,
) -> io::Result<()>
    requires { RoomToInterval bytes.now horizon (length cells.old) }
{
    let verdict = find_curve(bytes, horizon, cells);
    if verdict.is_err() {
        return print_verdict(rt, verdict);
    }
    print_curve(rt, bytes, cells, rows_of(bytes), horizon as usize)?;
    if with_fixed {
        print_fixed(rt, bytes, horizon as usize)?;
    }
    print_verdict(rt, verdict)
}

// One table of cells serves the verdict and the steps.
fn find_curve(bytes: &[u8], horizon: u64, cells: &mut [u32]) -> Result<Option<u64>, Refusal>
    requires { RoomToInterval bytes.now horizon (length cells.old) }
    ensures { CurveTold bytes.now horizon cells.new result }
{
    verdict_by_interval(bytes, horizon, cells)
}

// How many rows a sheet has, none where it is refused.
pub fn rows_of(bytes: &[u8]) -> usize
    ensures { result ≡ rows bytes.now }
{
    match judge(bytes) {
        Ok(sheet) => sheet.tally.rows,
        Err(_) => 0,
    }
}

// A line for each interval up to the horizon at which the demand of the fixed tasks rises.
fn print_fixed(rt: &impl Print, bytes: &[u8], horizon: usize) -> io::Result<()>
    requires accepted { (judged bytes.now).answer ≡ Accepted }
    requires in_range { horizon ≤ longest_time }
{
    let Ok(sheet) = judge(bytes) else {
        return Ok(());
    };
    let tasks = FixedTasks::new(sheet.tasks, sheet.tally.tasks);
    print_rises(
        rt,
        "fixed",
        horizon,
        |from| next_fixed_rise(&tasks, horizon, from),
        |interval| tasks.demand_at(interval),
    )
}
