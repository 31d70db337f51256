// Either table filled, line after line: in blocks of lines where no row reaches back into its own block, else one line at a time.
#![tactic(auto)]

ghost use Rattle.std.specs.Prelude.{◌≡◌, ℕ, ◌+◌, ◌*◌, ◌≤◌, ◌<◌, length, get_or};
ghost use Rattle.meaning.specs.Cells.{Filled};
ghost use Rattle.meaning.specs.Demand.{longest_time};
ghost use Rattle.tables.specs.Lines.{HasLines};
ghost use Rattle.blocks.specs.Blocks.{block_size};
ghost use Rattle.beginning.specs.Beginning.{graph};
ghost use Rattle.filling.specs.Reaching.{row_reach, MayBlock, Put};

use blocks::BLOCK;
use blocks::amount::block_times;
use blocks::interval::block_cells;
use fields::values::Row;
use tables::amount::least_cell;
use tables::interval::cell;
use tables::rows::Rows;
use tables::{ByAmount, ByInterval, Table};

// A table that can be filled: what its cells are calculated from, and how.
pub trait Fillable: Table {
    ghost reach: { ℕ → ℕ → ℕ };

    // By how many lines the cells that a row's cell is calculated from are before it, at least.
    fn reach(row: Row, work: u32) -> usize
        ensures { result ≡ reach row.deadline.0 work };

    // The cell of row k in a line, from the lines before.
    fn cell(rows: &Rows, cells: &[u32], k: usize, line: usize) -> u32
        requires counted { k < rows.now.count }
        requires in_range { line ≤ longest_time }
        requires room { rows.now.count * (line + 1) ≤ length cells.now }
        requires has_lines { HasLines rows.now.count (Self.right (graph rows.now.bytes.now)) cells.now line }
        ensures { Self.right (graph rows.now.bytes.now) line k result };

    // The cells of row k in a block of lines, from the lines before the block.
    fn block(rows: &Rows, cells: &[u32], k: usize, line: usize) -> [u32; BLOCK]
        requires counted { k < rows.now.count }
        requires in_range { line + block_size ≤ longest_time + 1 }
        requires room { rows.now.count * (line + block_size) ≤ length cells.now }
        requires reaches_back { block_size ≤ row_reach reach rows.now.bytes.now k }
        requires has_lines { HasLines rows.now.count (Self.right (graph rows.now.bytes.now)) cells.now line }
        ensures { (i : ℕ) → i < block_size → Self.right (graph rows.now.bytes.now) (line + i) k (get_or result i 0) };
}

// A cell by interval reads no line nearer than the row's deadline, since no gap is shorter.
impl Fillable for ByInterval {
    ghost reach = { λ deadline work. deadline };

    fn reach(row: Row, _work: u32) -> usize {
        row.deadline.0 as usize
    }

    fn cell(rows: &Rows, cells: &[u32], k: usize, line: usize) -> u32 {
        let row = rows.row(k);
        cell(rows.bytes, cells, row, rows.lengths[k], rows.count, line)
    }

    fn block(rows: &Rows, cells: &[u32], k: usize, line: usize) -> [u32; BLOCK] {
        let row = rows.row(k);
        block_cells(rows.bytes, cells, row, rows.lengths[k], rows.count, line)
    }
}

// A cell by amount reads the line that is the job length before it.
impl Fillable for ByAmount {
    ghost reach = { λ deadline work. work };

    fn reach(_row: Row, work: u32) -> usize {
        work as usize
    }

    fn cell(rows: &Rows, cells: &[u32], k: usize, line: usize) -> u32 {
        let row = rows.row(k);
        least_cell(rows.bytes, cells, row, rows.lengths[k], rows.count, line)
    }

    fn block(rows: &Rows, cells: &[u32], k: usize, line: usize) -> [u32; BLOCK] {
        let row = rows.row(k);
        block_times(rows.bytes, cells, row, rows.lengths[k], rows.count, line)
    }
}

// Fills the first lines of a table: of the intervals from 0 on, or of the amounts from 1 on.
pub fn fill<T: Fillable>(rows: &Rows, cells: &mut [u32], lines: usize)
    requires in_range { lines ≤ longest_time + 1 }
    requires room { rows.now.count * lines ≤ length cells.old }
    ensures { Filled rows.now.count (T.right (graph rows.now.bytes.now)) cells.old cells.new (rows.now.count * lines) }
{
    let blocked = blocked_lines::<T>(rows, lines);
    let first = fill_blocks::<T>(rows, cells, blocked);
    fill_lines::<T>(rows, cells, first, lines);
}

// How many lines may be filled in blocks: all, or none where a row reaches back by less than a block.
fn blocked_lines<T: Fillable>(rows: &Rows, lines: usize) -> usize
    ensures at_most { result ≤ lines }
    ensures may_block { MayBlock T.reach rows.now.bytes.now rows.now.count result }
{
    for k in 0..rows.count {
        if T::reach(rows.row(k), rows.lengths[k]) < BLOCK {
            return 0;
        }
    }
    lines
}

// Fills as many whole blocks of lines as there are, and gives the number of the first line behind them.
fn fill_blocks<T: Fillable>(rows: &Rows, cells: &mut [u32], lines: usize) -> usize
    requires in_range { lines ≤ longest_time + 1 }
    requires room { rows.now.count * lines ≤ length cells.old }
    requires may_block { MayBlock T.reach rows.now.bytes.now rows.now.count lines }
    ensures at_most { result ≤ lines }
    ensures filled { Filled rows.now.count (T.right (graph rows.now.bytes.now)) cells.old cells.new (rows.now.count * result) }
{
    // A copy of its own, which no write into the cells can change, so that the compiled loops read it once.
    let own = *rows;
    let blocks = lines / BLOCK;
    for block in 0..blocks {
        fill_block::<T>(&own, cells, block * BLOCK);
    }
    blocks * BLOCK
}

// Fills one block of lines, row after row, where the lines before it are filled.
fn fill_block<T: Fillable>(rows: &Rows, cells: &mut [u32], line: usize)
    requires in_range { line + block_size ≤ longest_time + 1 }
    requires room { rows.now.count * (line + block_size) ≤ length cells.old }
    requires reach_back { (k : ℕ) → k < rows.now.count → block_size ≤ row_reach T.reach rows.now.bytes.now k }
    requires has_lines { HasLines rows.now.count (T.right (graph rows.now.bytes.now)) cells.old line }
    ensures { Filled rows.now.count (T.right (graph rows.now.bytes.now)) cells.old cells.new (rows.now.count * (line + block_size)) }
{
    for k in 0..rows.count {
        let column = T::block(rows, cells, k, line);
        put_column(cells, rows.count, line, k, column);
    }
}

// Stores the cells of row k in a block of lines.
fn put_column(cells: &mut [u32], n: usize, line: usize, k: usize, column: [u32; BLOCK])
    requires counted { k < n }
    requires room { n * (line + block_size) ≤ length cells.old }
    ensures { Put n line k column cells.old cells.new block_size }
{
    for i in 0..BLOCK {
        cells[(line + i) * n + k] = column[i];
    }
}

// Fills the lines from one on, one at a time, where the lines before are filled. In the compiled `fill` the blocks would leave it too few registers.
#[inline(never)]
fn fill_lines<T: Fillable>(rows: &Rows, cells: &mut [u32], first: usize, lines: usize)
    requires first_le_lines { first ≤ lines }
    requires in_range { lines ≤ longest_time + 1 }
    requires room { rows.now.count * lines ≤ length cells.old }
    requires has_lines { HasLines rows.now.count (T.right (graph rows.now.bytes.now)) cells.old first }
    ensures { Filled rows.now.count (T.right (graph rows.now.bytes.now)) cells.old cells.new (rows.now.count * lines) }
{
    for line in first..lines {
        fill_line::<T>(rows, cells, line);
    }
}

// Fills one line, where the lines before are filled.
fn fill_line<T: Fillable>(rows: &Rows, cells: &mut [u32], line: usize)
    requires in_range { line ≤ longest_time }
    requires room { rows.now.count * (line + 1) ≤ length cells.old }
    requires has_lines { HasLines rows.now.count (T.right (graph rows.now.bytes.now)) cells.old line }
    ensures { Filled rows.now.count (T.right (graph rows.now.bytes.now)) cells.old cells.new (rows.now.count * (line + 1)) }
{
    for k in 0..rows.count {
        cells[line * rows.count + k] = T::cell(rows, cells, k, line);
    }
}
