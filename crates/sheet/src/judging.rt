// The rules of each kind of field on the file's bytes, and what a field adds to what is kept of the sheet.
ghost use Rattle.std.specs.Prelude.{◌≡◌, ◌+◌, ◌*◌, ◌<◌, ◌≤◌, true, List, [], length, Ok};
ghost use Rattle.fields.specs.Deciding.{first_broken};
ghost use Rattle.fields.specs.Limits.{mode_limit, row_limit, task_limit, mode_size, task_size, gap_size};
ghost use Rattle.fields.specs.Reading.{fallback_at, mode_at, jitter_at, task_at};
ghost use Rattle.rules.specs.Rules.{follower_count};
ghost use Rattle.sheet.specs.Content.{gap_shorter, row_gap_rules};
ghost use Rattle.sheet.specs.Values.{with_label, with_mode, with_row, with_task};
ghost use Rattle.sheet.specs.Judging.{head_rules, own_rules, field_rules, end_judged};
ghost use Rattle.sheet.specs.Outline.{head_of, sheet_from, outline_of, head_with, is_row, places_with, PlacesIn, RowsFrom};

use crate::Head;
use crate::rows::{row_at, unknown_follower};
use fields::reader::{Field, long_at, word_at};
use fields::refusal::{Reason, Refusal};
use fields::table::Kind;
use fields::units::{Rpm, Ticks};
use fields::values::{Mode, Part, Row, Sheet, Tally, Task};
use rules::counting::{count_label, count_mode, count_row, count_task};
use rules::text::judge_text;
use rules::{judge_mode, judge_row, judge_task, unlike_set};

// The rules of a field by itself.
pub(crate) fn judge_field(bytes: &[u8], tally: Tally, field: Field) -> Result<(), Reason>
    requires { field.start + field.size ≤ length bytes.now }
    ensures { result ≡ first_broken (field_rules bytes.now tally field.kind field.start field.size) }
{
    judge_head(bytes, tally, field)?;
    judge_content(bytes, tally, field)
}

// The first rules of a field: its place in the order, its length, its count. A refused tag does not come here, the reader has refused it.
fn judge_head(bytes: &[u8], tally: Tally, field: Field) -> Result<(), Reason>
    requires { field.start + field.size ≤ length bytes.now }
    ensures { result ≡ first_broken (head_rules bytes.now tally field.kind field.start field.size) }
{
    let size = field.size;
    match field.kind {
        Kind::RefusedTag => Err(Reason::UnknownTag),
        Kind::LabelField => rules::judge_field(field.kind, tally.last, size, false, 0),
        Kind::ModeField => rules::judge_field(field.kind, tally.last, size, false, tally.modes),
        Kind::RowField => {
            let unlike = unlike_set(size, long_at(bytes, field.start + 4));
            rules::judge_field(field.kind, tally.last, size, unlike, tally.rows)
        }
        Kind::TaskField => rules::judge_field(field.kind, tally.last, size, false, tally.tasks),
        Kind::EndField => rules::judge_field(field.kind, tally.last, size, false, 0),
        Kind::SkippedField => Ok(()),
    }
}

// The rules of a field's bytes and numbers, which are all there where it keeps the first ones.
fn judge_content(bytes: &[u8], tally: Tally, field: Field) -> Result<(), Reason>
    requires inside { field.start + field.size ≤ length bytes.now }
    requires head_kept { first_broken (head_rules bytes.now tally field.kind field.start field.size) ≡ Ok tt }
    ensures { result ≡ first_broken (own_rules bytes.now tally field.kind field.start field.size) }
{
    match field.kind {
        Kind::RefusedTag => Ok(()),
        Kind::LabelField => judge_text(bytes, field.start, field.size),
        Kind::ModeField => judge_mode(tally, mode_at(bytes, field), field.size),
        Kind::RowField => judge_row_in_file(bytes, tally, row_at(bytes, field.start)),
        Kind::TaskField => judge_task(task_at(bytes, field)),
        Kind::EndField => Ok(()),
        Kind::SkippedField => Ok(()),
    }
}

// The end of the sheet, where the end field at `at` breaks no rule by itself and the next field would start at `next`: rule 9, then rule 4.
pub(crate) fn outline_end(
    bytes: &[u8],
    places: &[usize; Sheet::ROWS],
    head: Head,
    at: usize,
    next: usize,
) -> Result<Head, Refusal>
    requires { PlacesIn bytes.now places.now head.tally.rows }
    ensures { (rows : List Row) → RowsFrom bytes.now places.now head.tally.rows rows → result ≡ outline_of (end_judged bytes.now (sheet_from head rows) at next) }
{
    if unknown_follower(bytes, places, head.tally.rows) {
        return Err(Refusal {
            reason: Reason::UnknownFollower,
            place: at,
        });
    }
    if next < bytes.len() {
        return Err(Refusal {
            reason: Reason::BehindTheEnd,
            place: next,
        });
    }
    Ok(head)
}

// The head with what a field that breaks no rule adds to it.
pub(crate) fn with_field(bytes: &[u8], head: Head, field: Field) -> Head
    requires inside { field.start + field.size ≤ length bytes.now }
    requires rules_kept { first_broken (field_rules bytes.now head.tally field.kind field.start field.size) ≡ Ok tt }
    ensures { result ≡ head_with bytes.now head field.kind field.start field.size }
{
    match field.kind {
        Kind::RefusedTag => head,
        Kind::LabelField => with_label(head, field.start, field.size),
        Kind::ModeField => with_mode(head, mode_at(bytes, field)),
        Kind::RowField => with_row(head, row_at(bytes, field.start)),
        Kind::TaskField => with_task(head, task_at(bytes, field)),
        Kind::EndField => head,
        Kind::SkippedField => head,
    }
}

// Keeps the place of a row, which has that number; of another field there is none to keep.
pub(crate) fn keep_place(places: &mut [usize; Sheet::ROWS], field: Field, number: usize)
    requires { is_row field.kind ≡ true → number < row_limit }
    ensures { places.new ≡ places_with field.kind places.old number field.start }
{
    if field.kind == Kind::RowField {
        places[number] = field.start;
    }
}

// The rules of a row's numbers and gaps.
fn judge_row_in_file(bytes: &[u8], tally: Tally, row: Row) -> Result<(), Reason>
    requires { row.gaps + gap_size * follower_count row.followers ≤ length bytes.now }
    ensures { result ≡ first_broken (row_gap_rules bytes.now tally row) }
{
    let gaps = sets::size(row.followers);
    let zero_gap = gap_shorter(bytes, row.gaps, gaps, Ticks(1));
    let short_gap = gap_shorter(bytes, row.gaps, gaps, row.deadline);
    judge_row(tally, row, zero_gap, short_gap)
}

// Rule 7 and rule 10 of gaps: whether one of `count` from a place on is shorter than a bound.
fn gap_shorter(bytes: &[u8], place: usize, count: usize, bound: Ticks) -> bool
    requires { place + gap_size * count ≤ length bytes.now }
    ensures { result ≡ gap_shorter bytes.now place count bound }
{
    (0..count).any(|passed| Ticks(word_at(bytes, place + Sheet::GAP * passed)) < bound)
}

fn mode_at(bytes: &[u8], field: Field) -> Mode
    requires { field.start + mode_size ≤ length bytes.now }
    ensures { result ≡ mode_at bytes.now field.start field.size }
{
    Mode {
        boundary: Rpm(word_at(bytes, field.start)),
        length: Ticks(word_at(bytes, field.start + 2)),
        fallback: fallback_at(bytes, field),
    }
}

// A field without a fall-back says that it is the boundary.
fn fallback_at(bytes: &[u8], field: Field) -> Rpm
    requires { field.start + mode_size ≤ length bytes.now }
    ensures { result ≡ fallback_at bytes.now field.start field.size }
{
    if field.size == Sheet::MODE {
        return Rpm(word_at(bytes, field.start));
    }
    Rpm(word_at(bytes, field.start + Sheet::MODE))
}

fn task_at(bytes: &[u8], field: Field) -> Task
    requires { field.start + task_size ≤ length bytes.now }
    ensures { result ≡ task_at bytes.now field.start field.size }
{
    Task {
        length: Ticks(word_at(bytes, field.start)),
        period: Ticks(word_at(bytes, field.start + 2)),
        deadline: Ticks(word_at(bytes, field.start + 4)),
        jitter: jitter_at(bytes, field),
    }
}

// A field without a jitter says that it is 0.
fn jitter_at(bytes: &[u8], field: Field) -> Ticks
    requires { field.start + task_size ≤ length bytes.now }
    ensures { result ≡ jitter_at bytes.now field.start field.size }
{
    if field.size == Sheet::TASK {
        return Ticks(0);
    }
    Ticks(word_at(bytes, field.start + Sheet::TASK))
}

fn with_label(head: Head, start: usize, size: usize) -> Head
    ensures { result ≡ head_of (with_label (sheet_from head []) start size) }
{
    Head {
        label: Part { start, size },
        tally: count_label(head.tally),
        ..head
    }
}

fn with_mode(head: Head, mode: Mode) -> Head
    requires { head.tally.modes < mode_limit }
    ensures { result ≡ head_of (with_mode (sheet_from head []) mode) }
{
    let mut next = head;
    next.modes[head.tally.modes] = mode;
    next.tally = count_mode(head.tally, mode);
    next
}

fn with_row(head: Head, row: Row) -> Head
    requires { head.tally.rows < row_limit }
    ensures { result ≡ head_of (with_row (sheet_from head []) row) }
{
    Head {
        tally: count_row(head.tally, row.speed),
        ..head
    }
}

fn with_task(head: Head, task: Task) -> Head
    requires { head.tally.tasks < task_limit }
    ensures { result ≡ head_of (with_task (sheet_from head []) task) }
{
    let mut next = head;
    next.tasks[head.tally.tasks] = task;
    next.tally = count_task(head.tally);
    next
}
