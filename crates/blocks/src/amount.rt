// Blocks of the table by amount. Its lines count from 0 and amounts from 1.
ghost use Rattle.std.specs.Prelude.{◌+◌, ◌*◌, ◌≤◌, ◌<◌, min, length, get_or};
ghost use Rattle.meaning.specs.Cells.{amount_of};
ghost use Rattle.meaning.specs.Computed.{cell_for, least_at, time_or_none};
ghost use Rattle.meaning.specs.Demand.{longest_time};
ghost use Rattle.sheet.specs.Meaning.{gap_of};
ghost use Rattle.sheet.specs.Proper.{ProperRow};
ghost use Rattle.tables.specs.Amounts.{soonest_via};
ghost use Rattle.blocks.specs.Blocks.{block_size, EachLine};

use crate::BLOCK;
use fields::units::Ticks;
use fields::values::Row;
use tables::amount::{NO_TIME, least_cell, time_via};
use tables::walk::Followers;

// The cells of a row with a job length in the block of lines from a line on, from the lines before the block. A job is no shorter than a block, so what it leaves of each line's amount has its cells before the block.
pub fn block_times(
    bytes: &[u8],
    cells: &[u32],
    row: Row,
    work: u32,
    n: usize,
    line: usize,
) -> [u32; BLOCK]
    requires proper_row { ProperRow bytes.now n row }
    requires long_enough { block_size ≤ work }
    requires room { n * (line + block_size) ≤ length cells.now }
    requires in_range { line + block_size ≤ longest_time + 1 }
    ensures { EachLine (λ i. least_at n work row.deadline.0 (gap_of bytes.now row) (cell_for n cells.now) (amount_of (line + i))) result }
{
    let back = work as usize;
    if line < back {
        return first_times(bytes, cells, row, work, n, line);
    }
    let followers = Followers::new(bytes, n, row);
    soonest_in_block(followers, cells, line - back)
}

// The same where one job may be enough for some of the lines.
fn first_times(
    bytes: &[u8],
    cells: &[u32],
    row: Row,
    work: u32,
    n: usize,
    line: usize,
) -> [u32; BLOCK]
    requires proper_row { ProperRow bytes.now n row }
    requires some_work { 1 ≤ work }
    requires room { n * (line + block_size) ≤ length cells.now }
    requires in_range { line + block_size ≤ longest_time + 1 }
    ensures { EachLine (λ i. least_at n work row.deadline.0 (gap_of bytes.now row) (cell_for n cells.now) (amount_of (line + i))) result }
{
    let mut column = [0u32; BLOCK];
    // A loop, since `array::from_fn` asks its closure for facts that the check does not find here.
    for i in 0..BLOCK {
        column[i] = least_cell(bytes, cells, row, work, n, line + i);
    }
    column
}

// The soonest end time by way of a follower in each line of a block.
fn soonest_in_block(followers: Followers, cells: &[u32], line: usize) -> [u32; BLOCK]
    requires room { followers.count * (line + block_size) ≤ length cells.now }
    ensures { EachLine (λ i. soonest_via followers.entry.bytes.now cells.now followers.entry.rest followers.entry.place followers.entry.count (line + i)) result }
{
    let n = followers.count;
    let base = line * n;
    let mut left = followers;
    let mut soonest = [NO_TIME; BLOCK];
    while let Some((row, gap)) = left.next() {
        // The result has a name of its own, since the checker lays no call's result in an array that lives on.
        let sooner = sooner_by(cells, n, base + row, gap, soonest);
        soonest = sooner;
    }
    soonest
}

// The soonest so far in each line of a block, or the time by way of one row, whichever is sooner. The row's cells stand in lines one after the other.
fn sooner_by(
    cells: &[u32],
    n: usize,
    first: usize,
    gap: Ticks,
    soonest: [u32; BLOCK],
) -> [u32; BLOCK]
    requires { first + n * block_size < length cells.now + n }
    ensures { EachLine (λ i. min (get_or soonest i 0) (time_or_none (gap.0 + get_or cells.now (first + i * n) 0))) result }
{
    let mut sooner = [0u32; BLOCK];
    let mut from = first;
    for i in 0..BLOCK {
        sooner[i] = soonest[i].min(time_via(gap, cells[from]));
        from += n;
    }
    sooner
}
