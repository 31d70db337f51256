// The lines that programs print on standard output: a label with a number, a curve with its verdict, a refusal, a witness; and how they read standard input.
#![tactic(auto)]

mod reading;

ghost use Rattle.std.specs.Prelude.{ℕ, ◌+◌, ◌*◌, ◌≤◌, length};
ghost use Rattle.meaning.specs.Demand.{longest_time};
ghost use Rattle.printing.specs.Showing.{ShowsCurve};

use fields::refusal::Refusal;
pub use reading::read_full;
use std::io;
use steps::next_rise;
use tables::interval::demand_of;

// The label, the horizon, and a step for each interval up to it at which the engine's demand rises.
pub fn print_curve(
    rt: &impl Print,
    bytes: &[u8],
    cells: &[u32],
    rows: usize,
    horizon: usize,
) -> io::Result<()>
    requires { ShowsCurve bytes.now rows horizon cells.now }
{
    print_head(rt, bytes, "horizon", horizon as u64)?;
    print_rises(
        rt,
        "step",
        horizon,
        |from| next_rise(cells, rows, horizon, from),
        |interval| demand_of(cells, rows, interval) as u64,
    )
}

// A line for each interval up to the horizon at which something rises: a word for it, the interval, and the new amount. `next` finds the first
// from an interval on, and one past the horizon where there is none.
pub fn print_rises<N: Fn(usize) -> usize, A: Fn(usize) -> u64>(
    rt: &impl Print,
    word: &str,
    horizon: usize,
    next: N,
    amount_at: A,
) -> io::Result<()>
    requires in_range { horizon ≤ longest_time }
    requires next_asked { (from : ℕ) → 1 ≤ from → from ≤ horizon + 1 → N.pre next from }
    requires next_found { (from found : ℕ) → N.post next from found → (from ≤ found) × (found ≤ horizon + 1) }
    requires amount_asked { (interval : ℕ) → interval ≤ horizon → A.pre amount_at interval }
{
    let mut interval = next(1);
    while interval <= horizon {
        let amount = amount_at(interval);
        println!(rt; "{word} {interval} {amount}")?;
        interval = next(interval + 1);
    }
    Ok(())
}

pub fn print_verdict(rt: &impl Print, verdict: Result<Option<u64>, Refusal>) -> io::Result<()> {
    match verdict {
        Ok(None) => rt.println("holds"),
        Ok(Some(interval)) => println!(rt; "fails {interval}"),
        Err(refusal) => rt.println(refusal),
    }
}

// The sheet's label, and the number that it is asked with. A label is printed as the bytes that it has, text or not.
pub fn print_head(rt: &impl Print, bytes: &[u8], word: &str, number: u64) -> io::Result<()> {
    rt.print("label ")?;
    rt.write_all(sheet::label(bytes))?;
    rt.println("")?;
    println!(rt; "{word} {number}")
}

// The rows of a witness. Where the engine task asks for nothing there is none, and no line.
pub fn print_rows(rt: &impl Print, area: &[u8], count: usize) -> io::Result<()>
    requires { count ≤ length area.now }
{
    if count == 0 {
        return Ok(());
    }
    rt.print("by")?;
    for row in &area[..count] {
        print!(rt; " {row}")?;
    }
    rt.println("")
}
