// Blocks of the table by interval. Its lines are the intervals from 0 on.
ghost use Rattle.std.specs.Prelude.{◌≡◌, ℕ, ◌+◌, ◌*◌, ◌^◌, ◌≤◌, ◌<◌, max, length, get_or};
ghost use Rattle.meaning.specs.Demand.{longest_time};
ghost use Rattle.sheet.specs.Proper.{ProperRow};
ghost use Rattle.tables.specs.Adding.{added_at, most_added, cell_of};
ghost use Rattle.blocks.specs.Blocks.{block_size, EachLine, due_work};

use crate::BLOCK;
use fields::units::Ticks;
use fields::values::Row;
use std::array;
use tables::interval::added;
use tables::walk::Followers;

// The cells of a row with a job length in the block of lines from s on, from the lines before the block.
pub fn block_cells(
    bytes: &[u8],
    cells: &[u32],
    row: Row,
    work: u32,
    n: usize,
    s: usize,
) -> [u32; BLOCK]
    requires proper_row { ProperRow bytes.now n row }
    requires room { n * (s + block_size) ≤ length cells.now }
    requires in_range { s + block_size ≤ longest_time + 1 }
    requires fits { (i : ℕ) → i < block_size → cell_of bytes.now cells.now row work n (s + i) < 2 ^ 32 }
    ensures { EachLine (λ i. cell_of bytes.now cells.now row work n (s + i)) result }
{
    let deadline = row.deadline.0 as usize;
    let followers = Followers::new(bytes, n, row);
    let most = most_in_block(followers, cells, s);
    let mut column = [0u32; BLOCK];
    // A loop, since `array::from_fn` asks its closure for facts that the check does not find here.
    for i in 0..BLOCK {
        column[i] = due_work(deadline, work, s + i, most[i]);
    }
    column
}

// The most that a follower adds in each line of a block.
fn most_in_block(followers: Followers, cells: &[u32], s: usize) -> [u32; BLOCK]
    requires room { followers.count * (s + block_size) ≤ length cells.now }
    ensures { EachLine (λ i. most_added followers.entry.bytes.now cells.now followers.entry.rest followers.entry.place followers.entry.count (s + i)) result }
{
    let n = followers.count;
    let mut left = followers;
    let mut most = [0u32; BLOCK];
    while let Some((row, gap)) = left.next() {
        // The result has a name of its own, since the checker lays no call's result in an array that lives on.
        let more = raised(cells, n, s, gap, row, most);
        most = more;
    }
    most
}

// The most so far in each line of a block, raised to what a row that follows after a gap adds there. Few gaps end inside the block, so the two other cases do not test each line.
fn raised(
    cells: &[u32],
    n: usize,
    s: usize,
    gap: Ticks,
    row: usize,
    most: [u32; BLOCK],
) -> [u32; BLOCK]
    requires row_lt_n { row < n }
    requires room { n * (s + block_size) ≤ length cells.now }
    ensures { EachLine (λ i. max (get_or most i 0) (added_at n cells.now (s + i) gap.0 row)) result }
{
    let back = gap.0 as usize;
    if back <= s {
        return raised_by(cells, n, (s - back) * n + row, most);
    }
    if s + BLOCK <= back {
        return most;
    }
    raised_late(cells, n, s, gap, row, most)
}

// The same where the gap fits the block's first line, and so every line: the cells are those of one row in lines one after the other.
fn raised_by(cells: &[u32], n: usize, first: usize, most: [u32; BLOCK]) -> [u32; BLOCK]
    requires { first + n * block_size < length cells.now + n }
    ensures { EachLine (λ i. max (get_or most i 0) (get_or cells.now (first + i * n) 0)) result }
{
    let mut more = [0u32; BLOCK];
    let mut from = first;
    for i in 0..BLOCK {
        more[i] = most[i].max(cells[from]);
        from += n;
    }
    more
}

// The same where it may fit some lines only.
fn raised_late(
    cells: &[u32],
    n: usize,
    s: usize,
    gap: Ticks,
    row: usize,
    most: [u32; BLOCK],
) -> [u32; BLOCK]
    requires row_lt_n { row < n }
    requires room { n * (s + block_size) ≤ length cells.now }
    ensures { EachLine (λ i. max (get_or most i 0) (added_at n cells.now (s + i) gap.0 row)) result }
{
    array::from_fn(|i| most[i].max(added(cells, n, s + i, gap, row)))
}

// A job length and what is added to it, from the deadline on.
fn due_work(deadline: usize, work: u32, s: usize, most: u32) -> u32
    requires { due_work deadline work s most < 2 ^ 32 }
    ensures { result ≡ due_work deadline work s most }
{
    if s < deadline {
        return 0;
    }
    work + most
}
