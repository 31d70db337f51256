// The program: reads a sheet from standard input and prints where the engine's demand rises, and the verdict, up to the horizon that fits its cells.
#![tactic(auto)]

ghost use Rattle.std.specs.Prelude.{◌≤◌, ◌≡◌};
ghost use Rattle.fields.specs.Limits.{row_limit};
ghost use Rattle.sheet.specs.Judging.{judged};
ghost use Rattle.sheet.specs.Answer.{Accepted};
ghost use Rattle.beginning.specs.Beginning.{rows as rows_of};

use printing::{print_curve, print_verdict, read_full};
use std::io;
use steps::horizon_of;

// The longest sheet that is read, and the cells to work in.
const LONGEST: usize = 8192;

const CELLS: usize = 12000;

fn main(rt: HostRuntime) -> io::Result<()> {
    let mut buffer = [0u8; LONGEST + 1];
    let size = read_full(&mut rt.reader(), &mut buffer)?;
    if LONGEST < size {
        return rt.println("too long");
    }
    print_sheet(&rt, &buffer[..size])
}

fn print_sheet(rt: &impl Print, bytes: &[u8]) -> io::Result<()> {
    match sheet::judge(bytes) {
        Ok(sheet) => print_accepted(rt, bytes, sheet.tally.rows),
        Err(refusal) => rt.println(refusal),
    }
}

// One table of cells serves the verdict and the steps.
fn print_accepted(rt: &impl Print, bytes: &[u8], rows: usize) -> io::Result<()>
    requires accepted { (judged bytes.now).answer ≡ Accepted }
    requires rows { rows ≡ rows_of bytes.now }
    requires some_rows { (1 ≤ rows) × (rows ≤ row_limit) }
{
    let mut cells = [0u32; CELLS];
    let horizon = horizon_of(CELLS, rows);
    let verdict = desk::verdict_by_interval(bytes, horizon as u64, &mut cells);
    print_curve(rt, bytes, &cells, rows, horizon)?;
    print_verdict(rt, verdict)
}
