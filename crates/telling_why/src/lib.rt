// What is printed for the question whether a sheet holds up to a horizon, and why, in cells and an area that are lent.
#![tactic(auto)]

ghost use Rattle.std.specs.Prelude.{◌≤◌, ◌≡◌, length, Ok};
ghost use Rattle.meaning.specs.Demand.{longest_time};
ghost use Rattle.fields.specs.Limits.{task_limit};
ghost use Rattle.sheet.specs.Judging.{judged};
ghost use Rattle.printing.specs.Refusals.{RoomToInterval};
ghost use Rattle.telling_why.specs.Told.{ExplainTold, OverrunTold};

use explain::{Cause, Explained, Overrun, explain};
use fields::refusal::Refusal;
use printing::{print_head, print_rows};
use sheet::judge;
use std::io;

pub fn tell_why(
    rt: &impl Print,
    bytes: &[u8],
    horizon: u64,
    cells: &mut [u32],
    area: &mut [u8],
) -> io::Result<()>
    requires room { RoomToInterval bytes.now horizon (length cells.old) }
    requires area_room { longest_time ≤ length area.old }
{
    let explained = explain(bytes, horizon, cells, area);
    print_answer(rt, bytes, horizon, explained, area)
}

fn print_answer(
    rt: &impl Print,
    bytes: &[u8],
    horizon: u64,
    answer: Result<Explained, Refusal>,
    area: &[u8],
) -> io::Result<()>
    requires { ExplainTold bytes.now horizon area.now answer }
{
    match answer {
        Ok(explained) => print_explained(rt, bytes, horizon, explained, area),
        Err(refusal) => rt.println(refusal),
    }
}

fn print_explained(
    rt: &impl Print,
    bytes: &[u8],
    horizon: u64,
    explained: Explained,
    area: &[u8],
) -> io::Result<()>
    requires { ExplainTold bytes.now horizon area.now (Ok explained) }
{
    print_head(rt, bytes, "horizon", horizon)?;
    match explained {
        Explained::Holds { margin, interval } => {
            println!(rt; "holds\nmargin {margin} at {interval}")
        }
        Explained::NoInterval => rt.println("holds"),
        Explained::Fails(overrun) => print_overrun(rt, bytes, overrun, area),
    }
}

fn print_overrun(rt: &impl Print, bytes: &[u8], overrun: Overrun, area: &[u8]) -> io::Result<()>
    requires { OverrunTold bytes.now area.now overrun }
{
    println!(rt; "fails {}", overrun.interval)?;
    print_cause(rt, overrun.cause)?;
    println!(rt; "engine {}", overrun.engine)?;
    print_rows(rt, area, overrun.count)?;
    print_tasks(rt, &overrun.demands[..tasks_of(bytes)])?;
    println!(rt; "excess {}", overrun.excess)
}

fn print_cause(rt: &impl Print, cause: Cause) -> io::Result<()> {
    match cause {
        Cause::Engine => rt.println("cause engine"),
        Cause::Fixed => rt.println("cause fixed"),
        Cause::Together => rt.println("cause together"),
    }
}

// What each of the fixed tasks asks for.
fn print_tasks(rt: &impl Print, demands: &[u64]) -> io::Result<()> {
    for (task, demand) in demands.iter().enumerate() {
        println!(rt; "task {task} {demand}")?;
    }
    Ok(())
}

// How many fixed tasks a sheet has, none where it is refused.
fn tasks_of(bytes: &[u8]) -> usize
    ensures tasks { result ≡ (judged bytes.now).sheet.tally.tasks }
    ensures at_most { result ≤ task_limit }
{
    match judge(bytes) {
        Ok(sheet) => sheet.tally.tasks,
        Err(_) => 0,
    }
}
