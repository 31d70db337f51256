// The table by interval: its line s has, for each row, the most work of a sequence from that row with end time at most s.
ghost use Rattle.std.specs.Prelude.{◌≡◌, ◌+◌, ◌*◌, ◌^◌, ◌≤◌, ◌<◌, max, length};
ghost use Rattle.meaning.specs.Computed.{cell_at, max_below};
ghost use Rattle.fields.specs.Reading.{ticks_at};
ghost use Rattle.tables.specs.Adding.{added_at, most_added, cell_of};
ghost use Rattle.sheet.specs.Outline.{Handed};
ghost use Rattle.sheet.specs.Proper.{ProperRow};
ghost use Rattle.tables.specs.Laid.{Laid};

use crate::walk::Followers;
use fields::reader::word_inside;
use fields::units::Ticks;
use fields::values::{Row, Sheet};
use modes::job_length;
use sheet::Head;
use sheet::rows::row_at;

// The largest cell of the line t.
pub fn demand_of(cells: &[u32], n: usize, t: usize) -> u32
    requires { n * (t + 1) ≤ length cells.now }
    ensures { result ≡ max_below n (cell_at n cells.now t) }
{
    let line = t * n;
    let mut most: u32 = 0;
    for cell in &cells[line..line + n] {
        most = most.max(*cell);
    }
    most
}

// The job length of each row.
pub fn job_lengths(bytes: &[u8], head: Head, places: &[usize; Sheet::ROWS]) -> [u32; Sheet::ROWS]
    requires { Handed bytes.now head places.now }
    ensures { Laid bytes.now places.now result head.tally.rows }
{
    let tally = head.tally;
    let modes = head.modes;
    let n = tally.rows;
    let mut lengths = [0u32; Sheet::ROWS];
    // No accepted sheet is without modes. Where it is said, the compiler makes no loop of zeros, which would need one more function of C's library.
    if tally.modes == 0 {
        return lengths;
    }
    for number in 0..n {
        let row = row_at(bytes, places[number]);
        lengths[number] = job_length(modes, tally.modes, row.speed).0 as u32;
    }
    lengths
}

// The cell of a row with a job length in the line s, from the lines before.
pub fn cell(bytes: &[u8], cells: &[u32], row: Row, work: u32, n: usize, s: usize) -> u32
    requires proper_row { ProperRow bytes.now n row }
    requires room { n * (s + 1) ≤ length cells.now }
    requires fits { cell_of bytes.now cells.now row work n s < 2 ^ 32 }
    ensures { result ≡ cell_of bytes.now cells.now row work n s }
{
    if s < row.deadline.0 as usize {
        return 0;
    }
    let followers = Followers::new(bytes, n, row);
    work + most_added(followers, cells, s)
}

// The most that a follower adds.
fn most_added(followers: Followers, cells: &[u32], s: usize) -> u32
    requires room { followers.count * (s + 1) ≤ length cells.now }
    ensures { result ≡ most_added followers.entry.bytes.now cells.now followers.entry.rest followers.entry.place followers.entry.count s }
{
    let n = followers.count;
    let mut left = followers;
    let mut most: u32 = 0;
    // The walk goes on behind the use of the row: before it, the compiled loop takes an instruction more for each follower.
    while let Some((row, gap)) = left.lowest() {
        most = most.max(added(cells, n, s, gap, row));
        left.pass();
    }
    most
}

// What a row that follows after a gap adds.
pub fn added(cells: &[u32], n: usize, s: usize, gap: Ticks, row: usize) -> u32
    requires row_lt_n { row < n }
    requires room { n * (s + 1) ≤ length cells.now }
    ensures { result ≡ added_at n cells.now s gap.0 row }
{
    let back = gap.0 as usize;
    if s < back {
        return 0;
    }
    cells[(s - back) * n + row]
}

// The gap at a place that is known to be inside the file.
pub fn gap_at(bytes: &[u8], place: usize) -> Ticks
    requires { place + 1 < length bytes.now }
    ensures { result ≡ ticks_at bytes.now place }
{
    Ticks(word_inside(bytes, place))
}
