// The table by amount: a line has, for each row, the smallest end time of a sequence from that row with at least the line's amount. Lines count from 0 and amounts from 1.
ghost use Rattle.std.specs.Prelude.{◌≡◌, ◌+◌, ◌*◌, ◌≤◌, length};
ghost use Rattle.meaning.specs.Cells.{amount_of};
ghost use Rattle.meaning.specs.Computed.{cell_for, least_at, min_below, time_or_none};
ghost use Rattle.meaning.specs.Demand.{no_time};
ghost use Rattle.sheet.specs.Meaning.{gap_of};
ghost use Rattle.sheet.specs.Proper.{ProperRow};
ghost use Rattle.tables.specs.Amounts.{soonest_via};

use crate::walk::Followers;
use fields::units::Ticks;
use fields::values::{Row, Sheet};

// What stands for a time where there is none. The cells that callers are lent hold it (`no_time`), so a time is no option.
pub const NO_TIME: u32 = 4294967295;

// The smallest cell of the line of an amount.
pub fn shortest_of(cells: &[u32], n: usize, amount: usize) -> u32
    requires some { 1 ≤ amount }
    requires room { n * amount ≤ length cells.now }
    ensures { result ≡ min_below n no_time (cell_for n cells.now amount) }
{
    let line = (amount - 1) * n;
    let mut least = NO_TIME;
    for cell in &cells[line..line + n] {
        least = least.min(*cell);
    }
    least
}

// The cell of a row with a job length in a line, from the lines before.
pub fn least_cell(bytes: &[u8], cells: &[u32], row: Row, work: u32, n: usize, line: usize) -> u32
    requires proper_row { ProperRow bytes.now n row }
    requires some_work { 1 ≤ work }
    requires room { n * line ≤ length cells.now }
    ensures { result ≡ least_at n work row.deadline.0 (gap_of bytes.now row) (cell_for n cells.now) (amount_of line) }
{
    let back = work as usize;
    if line < back {
        return row.deadline.0 as u32;
    }
    let followers = Followers::new(bytes, n, row);
    soonest_via(followers, cells, line - back)
}

// The soonest end time by way of a follower. Only the least sum is tried for being too long, which takes less time than to try each.
fn soonest_via(followers: Followers, cells: &[u32], line: usize) -> u32
    requires room { followers.count * (line + 1) ≤ length cells.now }
    ensures { result ≡ soonest_via followers.entry.bytes.now cells.now followers.entry.rest followers.entry.place followers.entry.count line }
{
    let base = line * followers.count;
    let mut left = followers;
    let mut soonest = NO_TIME as u64;
    // As in the other table, the walk goes on behind the use of the row.
    while let Some((row, gap)) = left.lowest() {
        soonest = soonest.min(gap.0 as u64 + cells[base + row] as u64);
        left.pass();
    }
    if soonest <= Sheet::TICKS.0 as u64 {
        return soonest as u32;
    }
    NO_TIME
}

// A gap and the time after it together, if that is not beyond the longest. The test comes first, since the sum with no time would not fit.
pub fn time_via(gap: Ticks, after: u32) -> u32
    ensures { result ≡ time_or_none (gap.0 + after) }
{
    let first = gap.0 as u32;
    if Sheet::TICKS.0 as u32 - first < after {
        return NO_TIME;
    }
    first + after
}
