// Why a verdict is what it is: the cause of the first overrun with its numbers, or the smallest margin.
#![tactic(auto)]

mod answering;
mod demands;
mod looking;

ghost use Rattle.explain.specs.Calls.{ExplainCall};

use answering::explain_in;
use beginning::begin_interval;
use fields::refusal::Refusal;
use fields::values::Sheet;

// Which part exceeds an interval: the engine task alone, the fixed tasks alone, or only both together. Where each alone does, it is the engine.
#[derive(Clone, Copy, Debug, PartialEq, Eq)]
pub enum Cause {
    Engine,
    Fixed,
    Together,
}

// The first interval that is overrun, its cause, the engine's demand there, that of each fixed task in file order with 0 past the last task, what is too much, and how many rows the witness has.
#[derive(Clone, Copy)]
pub struct Overrun {
    pub interval: u64,
    pub cause: Cause,
    pub engine: u32,
    pub demands: [u64; Sheet::TASKS],
    pub excess: u64,
    pub count: usize,
}

// Why a verdict holds or fails. `Holds` has the smallest margin and the earliest interval that has it; `NoInterval` has neither, since the horizon is 0.
#[derive(Clone, Copy)]
pub enum Explained {
    Holds { margin: u64, interval: u64 },
    NoInterval,
    Fails(Overrun),
}

// Why the verdict up to a horizon holds or fails. The witness at the overrun goes to the area, one row number a byte.
pub fn explain(
    bytes: &[u8],
    horizon: u64,
    cells: &mut [u32],
    area: &mut [u8],
) -> Result<Explained, Refusal>
    ensures { ExplainCall bytes.now horizon cells.old area.old result cells.new area.new }
{
    let mut places = [0usize; Sheet::ROWS];
    let sheet = begin_interval(bytes, horizon, cells.len(), &mut places)?;
    explain_in(&sheet, horizon as usize, cells, area)
}
