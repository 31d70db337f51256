// The shortest interval for an amount, or that there is none.
ghost use Rattle.std.specs.Prelude.{length};
ghost use Rattle.meaning.specs.Demand.{no_time, IsShortest};
ghost use Rattle.beginning.specs.Beginning.{graph};
ghost use Rattle.printing.specs.Refusals.{RoomToAmount};
ghost use Rattle.telling.specs.Told.{ShortestTold};

use desk::shortest;
use fields::refusal::{Reason, Refusal};
use printing::print_head;
use std::io;

pub fn tell_shortest(
    rt: &impl Print,
    bytes: &[u8],
    amount: u64,
    cells: &mut [u32],
) -> io::Result<()>
    requires { RoomToAmount bytes.now amount (length cells.old) }
{
    let answer = shortest(bytes, amount, cells);
    print_shortest(rt, bytes, amount, answer)
}

// Refusal 14 is an answer: no interval up to the longest time is enough.
fn print_shortest(
    rt: &impl Print,
    bytes: &[u8],
    amount: u64,
    answer: Result<u32, Refusal>,
) -> io::Result<()>
    requires { ShortestTold bytes.now amount answer }
{
    match answer {
        Ok(time) => {
            print_head(rt, bytes, "amount", amount)?;
            println!(rt; "shortest {time}")
        }
        Err(refusal) if refusal.reason == Reason::NeverReached => print_none(rt, bytes, amount),
        Err(refusal) => rt.println(refusal),
    }
}

fn print_none(rt: &impl Print, bytes: &[u8], amount: u64) -> io::Result<()>
    requires { IsShortest (graph bytes.now) amount no_time }
{
    print_head(rt, bytes, "amount", amount)?;
    rt.println("none")
}
