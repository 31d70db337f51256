// A sheet's values by number, for who shows or edits them; 0 past the last one, and for a refused sheet.
#![tactic(auto)]

ghost use Rattle.std.specs.Prelude.{◌≡◌, ◌≤◌, length};
ghost use Rattle.sets.specs.Sets.{member};
ghost use Rattle.sheet.specs.Meaning.{gap_of};
ghost use Rattle.contents.specs.Contents.{mode_numbered, row_numbered, gap_numbered, task_numbered};

use fields::reader::word_at;
use fields::units::{Rpm, Ticks};
use fields::values::{Mode, Row, Sheet, Task};
use modes::job_length;
use sets::{WIDTH, below_row};
use sheet::outline_of;
use sheet::rows::row_at;

// A row's speed, deadline and follower set, and its job length.
#[derive(Clone, Copy)]
pub struct RowValues {
    pub speed: Rpm,
    pub deadline: Ticks,
    pub followers: u64,
    pub length: Ticks,
}

impl RowValues {
    // What is told of a row that there is not.
    pub const NONE: RowValues = RowValues {
        speed: Rpm(0),
        deadline: Ticks(0),
        followers: 0,
        length: Ticks(0),
    };
}

// The mode of a number.
pub fn mode_numbered(bytes: &[u8], number: usize) -> Mode
    ensures { result ≡ mode_numbered bytes.now number }
{
    let mut places = [0usize; Sheet::ROWS];
    let Ok(head) = outline_of(bytes, &mut places) else {
        return Mode::NONE;
    };
    if head.tally.modes <= number {
        return Mode::NONE;
    }
    head.modes[number]
}

// The row of a number, with its job length.
pub fn row_numbered(bytes: &[u8], number: usize) -> RowValues
    ensures { result ≡ row_numbered bytes.now number }
{
    let mut places = [0usize; Sheet::ROWS];
    let Ok(head) = outline_of(bytes, &mut places) else {
        return RowValues::NONE;
    };
    if head.tally.rows <= number {
        return RowValues::NONE;
    }
    let row = row_at(bytes, places[number]);
    RowValues {
        speed: row.speed,
        deadline: row.deadline,
        followers: row.followers,
        length: job_length(head.modes, head.tally.modes, row.speed),
    }
}

// The gap from a row to a row, 0 where the second may not follow the first.
pub fn gap_numbered(bytes: &[u8], from: usize, to: usize) -> Ticks
    ensures { result ≡ gap_numbered bytes.now from to }
{
    let mut places = [0usize; Sheet::ROWS];
    let Ok(head) = outline_of(bytes, &mut places) else {
        return Ticks(0);
    };
    if head.tally.rows <= from {
        return Ticks(0);
    }
    gap_in(bytes, row_at(bytes, places[from]), to)
}

// The gap from a row to a follower, 0 where it is none. Gaps stand one for each follower, so the followers below give its place.
fn gap_in(bytes: &[u8], row: Row, to: usize) -> Ticks
    requires { row.gaps ≤ length bytes.now }
    ensures { result.0 ≡ gap_of bytes.now row to }
{
    if follows(row.followers, to) {
        return Ticks(word_at(bytes, row.gaps + Sheet::GAP * below_row(row.followers, to)));
    }
    Ticks(0)
}

// Whether a row is among the followers.
fn follows(followers: u64, row: usize) -> bool
    ensures { result ≡ member followers row }
{
    if WIDTH <= row {
        return false;
    }
    (followers >> row) % 2 == 1
}

// The fixed task of a number.
pub fn task_numbered(bytes: &[u8], number: usize) -> Task
    ensures { result ≡ task_numbered bytes.now number }
{
    let mut places = [0usize; Sheet::ROWS];
    let Ok(head) = outline_of(bytes, &mut places) else {
        return Task::NONE;
    };
    if head.tally.tasks <= number {
        return Task::NONE;
    }
    head.tasks[number]
}
