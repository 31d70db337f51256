// The fields of each kind, one written into the rest behind the other.
ghost use Rattle.std.specs.Prelude.{◌≡◌, ◌^◌, ◌<◌, ◌≤◌, length};
ghost use Rattle.sets.specs.Sets.{width};
ghost use Rattle.fields.specs.Limits.{row_limit};
ghost use Rattle.written.specs.Lent.{modes_lent, rows_lent, tasks_lent};
ghost use Rattle.written.specs.Values.{ModeEntry, RowEntry, TaskEntry};
ghost use Rattle.written.specs.Written.{content_of, field_of, fields_of};
ghost use Rattle.putting.specs.Putting.{Unbroken, Narrow, Put};

use crate::pieces::{put_field, put_head, put_numbers};
use fields::table::Kind;
use fields::units::{Rpm, Ticks};
use fields::values::{Mode, Row, Sheet, Task};
use written::{ModeColumns, RowColumns, TaskColumns};

// In each loop below one index reads all columns at once; a `zip` of them would be pairs of pairs.

// The modes' fields, and how many bytes they have.
pub(crate) fn put_modes(out: &mut [u8], modes: ModeColumns) -> usize
    requires room { length (fields_of (modes_lent modes)) ≤ length out.old }
    requires unbroken { Unbroken (modes_lent modes) }
    ensures size { result ≡ length (fields_of (modes_lent modes.entry)) }
    ensures put { Put (fields_of (modes_lent modes.entry)) out.old out.new }
{
    let mut at = 0;
    for number in 0..modes.boundaries.len() {
        let mode = Mode {
            boundary: Rpm(modes.boundaries[number]),
            length: Ticks(modes.lengths[number]),
            fallback: Rpm(modes.fallbacks[number]),
        };
        at += put_mode(&mut out[at..], mode);
    }
    at
}

// One mode's field, in its shorter form, and how many bytes it has.
#[tactic(auto, unfolding(fields::specs::Deciding::pick, written::specs::Written::tag_of, written::specs::Written::content_of, written::specs::Written::mode_numbers, written::specs::Written::words))]
fn put_mode(out: &mut [u8], mode: Mode) -> usize
    requires { length (field_of (ModeEntry mode)) ≤ length out.old }
    ensures size { result ≡ length (field_of (ModeEntry mode)) }
    ensures put { Put (field_of (ModeEntry mode)) out.old out.new }
{
    if mode.fallback == mode.boundary {
        return put_field(out, Kind::ModeField, &[mode.boundary.0, mode.length.0]);
    }
    put_field(
        out,
        Kind::ModeField,
        &[mode.boundary.0, mode.length.0, mode.fallback.0],
    )
}

// The rows' fields, and how many bytes they have.
pub(crate) fn put_rows(out: &mut [u8], rows: RowColumns) -> usize
    requires room { length (fields_of (rows_lent rows)) ≤ length out.old }
    requires unbroken { Unbroken (rows_lent rows) }
    requires narrow { Narrow rows.sets.now }
    ensures size { result ≡ length (fields_of (rows_lent rows.entry)) }
    ensures put { Put (fields_of (rows_lent rows.entry)) out.old out.new }
{
    let mut at = 0;
    let mut from = 0;
    for number in 0..rows.speeds.len() {
        let followers = rows.sets[number];
        let row = Row {
            speed: Rpm(rows.speeds[number]),
            deadline: Ticks(rows.deadlines[number]),
            followers,
            gaps: 0,
        };
        let to = from + sets::size(followers);
        at += put_row(&mut out[at..], row, &rows.gaps[from..to]);
        from = to;
    }
    at
}

// One row's field, and how many bytes it has.
#[tactic(auto, using(written::proofs::EntryFields::words_length), unfolding(written::specs::Written::content_of, written::specs::Written::words))]
fn put_row(out: &mut [u8], row: Row, gaps: &[u16]) -> usize
    requires room { length (field_of (RowEntry row.speed row.deadline row.followers gaps.now)) ≤ length out.old }
    requires few { length gaps.now ≤ width }
    requires narrow { row.followers < 2 ^ row_limit }
    ensures size { result ≡ length (field_of (RowEntry row.speed row.deadline row.followers gaps.now)) }
    ensures put { Put (field_of (RowEntry row.speed row.deadline row.followers gaps.now)) out.old out.new }
{
    let size = Sheet::HEAD + Sheet::GAP * gaps.len();
    put_head(out, Kind::RowField, size);
    put_row_content(&mut out[3..], row, gaps);
    3 + size
}

// What a row's field has behind its head. A set has bits for the rows that a sheet may have, so four bytes hold it.
#[tactic(auto, using(written::proofs::EntryFields::words_length), unfolding(written::specs::Written::content_of, written::specs::Written::words))]
fn put_row_content(out: &mut [u8], row: Row, gaps: &[u16])
    requires room { length (content_of (RowEntry row.speed row.deadline row.followers gaps.now)) ≤ length out.old }
    requires narrow { row.followers < 2 ^ row_limit }
    ensures { Put (content_of (RowEntry row.speed row.deadline row.followers gaps.now)) out.old out.new }
{
    let high = (row.followers / 65536) as u16;
    let low = (row.followers % 65536) as u16;
    put_numbers(out, &[row.speed.0, row.deadline.0, high, low]);
    put_numbers(&mut out[8..], gaps);
}

// The fixed tasks' fields, and how many bytes they have.
pub(crate) fn put_tasks(out: &mut [u8], tasks: TaskColumns) -> usize
    requires room { length (fields_of (tasks_lent tasks)) ≤ length out.old }
    requires unbroken { Unbroken (tasks_lent tasks) }
    ensures size { result ≡ length (fields_of (tasks_lent tasks.entry)) }
    ensures put { Put (fields_of (tasks_lent tasks.entry)) out.old out.new }
{
    let mut at = 0;
    for number in 0..tasks.lengths.len() {
        let task = Task {
            length: Ticks(tasks.lengths[number]),
            period: Ticks(tasks.periods[number]),
            deadline: Ticks(tasks.deadlines[number]),
            jitter: Ticks(tasks.jitters[number]),
        };
        at += put_task(&mut out[at..], task);
    }
    at
}

// One fixed task's field, in its shorter form, and how many bytes it has.
#[tactic(auto, unfolding(fields::specs::Deciding::pick, written::specs::Written::tag_of, written::specs::Written::content_of, written::specs::Written::task_numbers, written::specs::Written::words))]
fn put_task(out: &mut [u8], task: Task) -> usize
    requires { length (field_of (TaskEntry task)) ≤ length out.old }
    ensures size { result ≡ length (field_of (TaskEntry task)) }
    ensures put { Put (field_of (TaskEntry task)) out.old out.new }
{
    if task.jitter == Ticks(0) {
        return put_field(
            out,
            Kind::TaskField,
            &[task.length.0, task.period.0, task.deadline.0],
        );
    }
    put_field(
        out,
        Kind::TaskField,
        &[task.length.0, task.period.0, task.deadline.0, task.jitter.0],
    )
}
