// How every call begins: the sheet is judged, then the number asked for and the room are.
#![tactic(auto)]

pub mod accepted;

ghost use Rattle.std.specs.Prelude.{◌≡◌, ◌+◌, ◌≤◌, ltb, IfSome, Some, None};
ghost use Rattle.meaning.specs.Demand.{longest_time};
ghost use Rattle.fields.specs.Deciding.{pick};
ghost use Rattle.beginning.specs.Beginning.{bad_amount, interval_rules, amount_rules, counted_rules, Begun};

use accepted::AcceptedSheet;
use fields::refusal::{Reason, Refusal};
use fields::values::Sheet;
use sheet::outline_of;

// A call with an interval or a horizon, which takes a line of cells for each interval from 0 on.
pub fn begin_interval<'a>(
    bytes: &'a [u8],
    interval: u64,
    room: usize,
    places: &'a mut [usize; Sheet::ROWS],
) -> Result<AcceptedSheet<'a>, Refusal>
    ensures { Begun bytes.now (interval_rules bytes.now interval room) result }
{
    begin(bytes, interval_lines(interval), room, places)
}

// A call with an amount, which takes a line of cells for each amount from 1 on.
pub fn begin_amount<'a>(
    bytes: &'a [u8],
    amount: u64,
    room: usize,
    places: &'a mut [usize; Sheet::ROWS],
) -> Result<AcceptedSheet<'a>, Refusal>
    ensures { Begun bytes.now (amount_rules bytes.now amount room) result }
{
    begin(bytes, amount_lines(amount), room, places)
}

// How many lines an interval takes, none where rule 11 refuses it.
fn interval_lines(interval: u64) -> Option<usize>
    ensures counted { result ≡ pick (ltb longest_time interval) None (Some (interval + 1)) }
    ensures few { IfSome result (λ lines. lines ≤ longest_time + 1) }
{
    if (Sheet::TICKS.0 as u64) < interval {
        return None;
    }
    Some(interval as usize + 1)
}

// How many lines an amount takes, none where rule 11 refuses it.
fn amount_lines(amount: u64) -> Option<usize>
    ensures counted { result ≡ pick (bad_amount amount) None (Some amount) }
    ensures few { IfSome result (λ lines. lines ≤ longest_time + 1) }
{
    if amount == 0 || (Sheet::TICKS.0 as u64) + 1 < amount {
        return None;
    }
    Some(amount as usize)
}

// The sheet where the call may go on, else the first of the refusals 1 to 12: the sheet's own, rule 11 where there are no lines, rule 12 where the room is too small.
fn begin<'a>(
    bytes: &'a [u8],
    lines: Option<usize>,
    room: usize,
    places: &'a mut [usize; Sheet::ROWS],
) -> Result<AcceptedSheet<'a>, Refusal>
    requires few { IfSome lines (λ count. count ≤ longest_time + 1) }
    ensures { Begun bytes.now (counted_rules bytes.now lines room) result }
{
    let head = outline_of(bytes, places)?;
    let Some(lines) = lines else {
        return Err(Refusal::from(Reason::OutOfRange));
    };
    if room < head.tally.rows * lines {
        return Err(Refusal::from(Reason::FewCells));
    }
    Ok(AcceptedSheet {
        bytes,
        head,
        places,
    })
}
