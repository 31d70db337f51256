// The witness at t, read off the table by interval: the first sequence in row order that attains the demand, found row by row.
#![tactic(auto)]

ghost use Rattle.std.specs.Prelude.{◌≡◌, ◌+◌, ◌*◌, ◌≤◌, ◌<◌, [], MatchOption, length};
ghost use Rattle.meaning.specs.Cells.{ByInterval};
ghost use Rattle.meaning.specs.Computed.{cell_at, seek, witness_of};
ghost use Rattle.meaning.specs.Demand.{longest_time};
ghost use Rattle.beginning.specs.Beginning.{graph};
ghost use Rattle.sheet.specs.Meaning.{gap_of};
ghost use Rattle.sheet.specs.Proper.{ProperRow};
ghost use Rattle.tables.specs.Seen.{row_in, work_in};
ghost use Rattle.tables.specs.Lines.{HasLines};
ghost use Rattle.witness.specs.Stands.{Written, IsShown, Passed, Stands, leads, first_with, start_of, onward_of, rest_of};

use fields::refusal::Reason;
use fields::values::{Row, Sheet};
use sets::below_row;
use tables::interval::{added, demand_of, gap_at};
use tables::rows::Rows;
use tables::walk::Followers;

// Where a witness stands: at a row, with the time and the work that are left from it on. Where no work is left it has no more rows.
#[derive(Clone, Copy)]
pub struct Stand {
    pub row: usize,
    pub left: usize,
    pub work: u32,
}

// The rows of the witness at t, a byte each, in an area that may be too short for them: they are counted before they are written, for rule 13.
pub fn show_witness(rows: &Rows, cells: &[u32], t: usize, area: &mut [u8]) -> Result<usize, Reason>
    requires in_range { t ≤ longest_time }
    requires has_lines { HasLines rows.now.count (ByInterval (graph rows.now.bytes.now)) cells.now (t + 1) }
    ensures { IsShown (witness_of (graph rows.now.bytes.now) t) area.old result area.new }
{
    let count = witness_count(rows, cells, t);
    if area.len() < count {
        return Err(Reason::ShortArea);
    }
    Ok(write_witness(rows, cells, t, area))
}

// How many rows the witness at t has.
fn witness_count(rows: &Rows, cells: &[u32], t: usize) -> usize
    requires in_range { t ≤ longest_time }
    requires has_lines { HasLines rows.now.count (ByInterval (graph rows.now.bytes.now)) cells.now (t + 1) }
    ensures { result ≡ length (witness_of (graph rows.now.bytes.now) t) }
{
    let mut stand = start(cells, rows.count, t);
    let mut count: usize = 0;
    while let Some(_) = next(rows, cells, &mut stand) {
        count += 1;
    }
    count
}

// Writes the rows of the witness at t, a byte each, into an area that has room for them, and gives their count. Bytes past it keep their values.
fn write_witness(rows: &Rows, cells: &[u32], t: usize, area: &mut [u8]) -> usize
    requires in_range { t ≤ longest_time }
    requires has_lines { HasLines rows.now.count (ByInterval (graph rows.now.bytes.now)) cells.now (t + 1) }
    requires room { length (witness_of (graph rows.now.bytes.now) t) ≤ length area.old }
    ensures { Written (witness_of (graph rows.now.bytes.now) t) area.old area.new result }
{
    let mut stand = start(cells, rows.count, t);
    let mut count: usize = 0;
    while let Some(row) = next(rows, cells, &mut stand) {
        area[count] = row as u8;
        count += 1;
    }
    count
}

// The row at which a witness stands, none where no work is left. The witness then stands behind it.
fn next(rows: &Rows, cells: &[u32], stand: &mut Stand) -> Option<usize>
    requires has_lines { HasLines rows.now.count (ByInterval (graph rows.now.bytes.now)) cells.now (stand.old.left + 1) }
    requires stands { Stands (graph rows.now.bytes.now) stand.old }
    ensures { MatchOption result (rest_of (graph rows.now.bytes.now) stand.old ≡ []) (λ row. Passed (graph rows.now.bytes.now) stand.old row stand.new) }
{
    if stand.work == 0 {
        return None;
    }
    let row = stand.row;
    if rows.lengths[row] < stand.work {
        *stand = onward(rows, cells, *stand);
    } else {
        stand.work = 0;
    }
    Some(row)
}

// The first row whose cell in the line t is the demand, with no work left where there is no demand.
fn start(cells: &[u32], n: usize, t: usize) -> Stand
    requires { n * (t + 1) ≤ length cells.now }
    ensures { result ≡ start_of n cells.now t }
{
    let work = demand_of(cells, n, t);
    let row = first_with(cells, n, t, work);
    Stand { row, left: t, work }
}

// The first row whose cell in the line t is the work wanted, n where there is none. An option would ask `start` for a case that never comes, since every line has its largest cell; and `position` over the line needs one more law of lists than this loop.
fn first_with(cells: &[u32], n: usize, t: usize, want: u32) -> usize
    requires { n * (t + 1) ≤ length cells.now }
    ensures { result ≡ first_with n cells.now t want }
{
    let line = t * n;
    for k in 0..n {
        if cells[line + k] == want {
            return k;
        }
    }
    n
}

// Where the witness goes on. The chosen row's gap stands after those of the followers below it.
fn onward(rows: &Rows, cells: &[u32], stand: Stand) -> Stand
    requires counted { stand.row < rows.now.count }
    requires room { rows.now.count * (stand.left + 1) ≤ length cells.now }
    requires work_left { work_in rows.now stand.row < stand.work }
    requires goes_on { (onward_of (gap_of rows.now.bytes.now (row_in rows.now stand.row)) cells.now (work_in rows.now stand.row) rows.now.count stand).row < rows.now.count }
    ensures { result ≡ onward_of (gap_of rows.now.bytes.now (row_in rows.now stand.row)) cells.now (work_in rows.now stand.row) rows.now.count stand }
{
    let row = rows.row(stand.row);
    let left = stand.left;
    let want = stand.work - rows.lengths[stand.row];
    let next = next_row(rows.bytes, cells, row, rows.count, left, want);
    let gap = gap_at(
        rows.bytes,
        row.gaps + Sheet::GAP * below_row(row.followers, next),
    );
    Stand {
        row: next,
        left: left - gap.0 as usize,
        work: want,
    }
}

// The first follower that adds just the work wanted, n where there is none. An option would ask `onward` for a case that never comes, since some row always leads on.
fn next_row(bytes: &[u8], cells: &[u32], row: Row, n: usize, left: usize, want: u32) -> usize
    requires proper_row { ProperRow bytes.now n row }
    requires room { n * (left + 1) ≤ length cells.now }
    requires want_nonzero { 0 < want }
    ensures { result ≡ seek n 0 (leads (gap_of bytes.now row) (cell_at n cells.now) left want) }
{
    let mut followers = Followers::new(bytes, n, row);
    while let Some((next, gap)) = followers.next() {
        if added(cells, n, left, gap, next) == want {
            return next;
        }
    }
    n
}
