// The public calls: each takes the sheet's bytes, reads them itself, works in lent memory and answers for any bytes and any numbers.
#![tactic(auto)]

mod answering;

ghost use Rattle.desk.specs.Calls.{DemandCall, MarginCall, ShortestCall, VerdictCall, VerdictByIntervalCall, VerdictByAmountCall};
ghost use Rattle.desk.specs.WhichTable.{filled_by};

use answering::{demand_in, margin_in, shortest_in, verdict_in};
use beginning::{begin_amount, begin_interval};
use fields::refusal::Refusal;
use fields::values::Sheet;
use filling::Fillable;
use overruns::sweep::Sweepable;
use tables::{ByAmount, ByInterval};

// The demand at an interval, and how many rows the witness has that attains it.
#[derive(Clone, Copy, Debug, PartialEq, Eq)]
pub struct Attained {
    pub amount: u32,
    pub count: usize,
}

// The demand at an interval. Its witness goes to the area, one row number a byte.
pub fn demand(
    bytes: &[u8],
    interval: u64,
    cells: &mut [u32],
    area: &mut [u8],
) -> Result<Attained, Refusal>
    ensures { DemandCall bytes.now interval cells.old area.old result cells.new area.new }
{
    let mut places = [0usize; Sheet::ROWS];
    let sheet = begin_interval(bytes, interval, cells.len(), &mut places)?;
    demand_in(&sheet, interval as usize, cells, area)
}

// The margin at an interval, below 0 where it is overrun.
pub fn margin(bytes: &[u8], interval: u64, cells: &mut [u32]) -> Result<i64, Refusal>
    ensures { MarginCall bytes.now interval cells.old result cells.new }
{
    let mut places = [0usize; Sheet::ROWS];
    let sheet = begin_interval(bytes, interval, cells.len(), &mut places)?;
    Ok(margin_in(&sheet, interval as usize, cells))
}

// The shortest interval for an amount.
pub fn shortest(bytes: &[u8], amount: u64, cells: &mut [u32]) -> Result<u32, Refusal>
    ensures { ShortestCall bytes.now amount cells.old result cells.new }
{
    let mut places = [0usize; Sheet::ROWS];
    let sheet = begin_amount(bytes, amount, cells.len(), &mut places)?;
    shortest_in(&sheet, amount as usize, cells)
}

// The first interval up to a horizon that is overrun, none where every one is met, from the table by interval.
pub fn verdict_by_interval(
    bytes: &[u8],
    horizon: u64,
    cells: &mut [u32],
) -> Result<Option<u64>, Refusal>
    ensures { VerdictByIntervalCall bytes.now horizon cells.old result cells.new }
{
    verdict::<ByInterval>(bytes, horizon, cells)
}

// The same from the table by amount.
pub fn verdict_by_amount(
    bytes: &[u8],
    horizon: u64,
    cells: &mut [u32],
) -> Result<Option<u64>, Refusal>
    ensures { VerdictByAmountCall bytes.now horizon cells.old result cells.new }
{
    verdict::<ByAmount>(bytes, horizon, cells)
}

// The verdict from either table.
fn verdict<T: Fillable + Sweepable>(
    bytes: &[u8],
    horizon: u64,
    cells: &mut [u32],
) -> Result<Option<u64>, Refusal>
    ensures { VerdictCall (filled_by T.right) bytes.now horizon cells.old result cells.new }
{
    let mut places = [0usize; Sheet::ROWS];
    let sheet = begin_interval(bytes, horizon, cells.len(), &mut places)?;
    Ok(verdict_in::<T>(&sheet, horizon as usize, cells))
}
