// Demand, witness and margin at an interval.
ghost use Rattle.std.specs.Prelude.{◌≤◌, ◌≡◌, length};
ghost use Rattle.meaning.specs.Demand.{longest_time};
ghost use Rattle.printing.specs.Refusals.{RoomToInterval};
ghost use Rattle.telling.specs.Told.{DemandTold, MarginTold, sign_of};

use desk::{Attained, demand, margin};
use fields::refusal::Refusal;
use printing::{print_head, print_rows};
use std::io;

// A margin as it is printed: so much is left of the interval, or so much is missing. Printed itself it would read the same; the type stays,
// since the definition `sign_of` and the edit `an_overrun_without_its_sign`, which may not change, are about it.
#[derive(Clone, Copy)]
pub(crate) enum Signed {
    Spare(u64),
    Missing(u64),
}

// Each call fills the table anew: the calls share no cells.
pub fn tell_at(
    rt: &impl Print,
    bytes: &[u8],
    interval: u64,
    cells: &mut [u32],
    area: &mut [u8],
) -> io::Result<()>
    requires room { RoomToInterval bytes.now interval (length cells.old) }
    requires area_room { longest_time ≤ length area.old }
{
    let found = demand(bytes, interval, cells, area);
    let left = margin(bytes, interval, cells);
    print_at(rt, bytes, interval, found, left, area)
}

fn print_at(
    rt: &impl Print,
    bytes: &[u8],
    interval: u64,
    found: Result<Attained, Refusal>,
    left: Result<i64, Refusal>,
    area: &[u8],
) -> io::Result<()>
    requires demand_told { DemandTold bytes.now interval area.now found }
    requires margin_told { MarginTold bytes.now interval left }
{
    match found {
        Err(refusal) => rt.println(refusal),
        Ok(Attained { amount, count }) => {
            print_head(rt, bytes, "interval", interval)?;
            println!(rt; "demand {amount}")?;
            print_rows(rt, area, count)?;
            print_margin(rt, left)
        }
    }
}

fn print_margin(rt: &impl Print, left: Result<i64, Refusal>) -> io::Result<()> {
    match left {
        Err(refusal) => rt.println(refusal),
        Ok(margin) => print_signed(rt, sign_of(margin)),
    }
}

fn print_signed(rt: &impl Print, margin: Signed) -> io::Result<()> {
    match margin {
        Signed::Spare(size) => println!(rt; "margin {size}"),
        Signed::Missing(size) => println!(rt; "margin -{size}"),
    }
}

// The sign and the size of a margin.
fn sign_of(margin: i64) -> Signed
    ensures { result ≡ sign_of margin }
{
    let size = margin.unsigned_abs();
    if margin < 0 {
        return Signed::Missing(size);
    }
    Signed::Spare(size)
}
