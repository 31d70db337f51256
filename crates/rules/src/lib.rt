// The rules 3 and 5 to 10 as functions on the tally and on values: a test for each, and for each list of rules the reason of the first that is broken.
#![tactic(auto)]

pub mod counting;
pub mod text;

ghost use Rattle.std.specs.Prelude.{◌≡◌};
ghost use Rattle.fields.specs.Deciding.{first_broken};
ghost use Rattle.fields.specs.Fields.{tag_of};
ghost use Rattle.rules.specs.Rules.{missing, out_of_order, wrong_length, full, bad_byte, bad_rpm, bad_fallback, last_hangs, unlike_set, unknown_in, common_rules, mode_rules, row_rules, task_rules};

use fields::refusal::Reason;
use fields::table::{Kind, line_of};
use fields::units::{Rpm, Ticks};
use fields::values::{Mode, Row, Sheet, Tally, Task};

// In each list below the tests stand one under the other, a test for each rule of the definition, so that their order can be read off.

// The first rules of the field that a tag begins: its place in the order, its length, its count.
// It is told whether the field is a row whose length is unlike its follower set.
pub fn judge_tag(
    tag: usize,
    last: usize,
    size: usize,
    unlike: bool,
    count: usize,
) -> Result<(), Reason>
    ensures { result ≡ first_broken (common_rules tag last size unlike count) }
{
    if out_of_order(last, tag) {
        return Err(Reason::OutOfOrder);
    }
    if wrong_length(tag, size) {
        return Err(Reason::WrongLength);
    }
    if unlike {
        return Err(Reason::WrongLength);
    }
    if full_of(tag, count) {
        return Err(Reason::TooMany);
    }
    Ok(())
}

// The same of a field whose kind is known: its tag is the kind's.
pub fn judge_field(
    kind: Kind,
    last: usize,
    size: usize,
    unlike: bool,
    count: usize,
) -> Result<(), Reason>
    ensures { result ≡ first_broken (common_rules (tag_of kind) last size unlike count) }
{
    judge_tag(usize::from(u8::from(kind)), last, size, unlike, count)
}

// The rules of the numbers of a mode, in a field of `size` bytes. Rule 8: a boundary that is not above the one before.
pub fn judge_mode(tally: Tally, mode: Mode, size: usize) -> Result<(), Reason>
    ensures { result ≡ first_broken (mode_rules tally mode size) }
{
    if bad_rpm(mode.boundary) {
        return Err(Reason::BadValue);
    }
    if mode.length == Ticks(0) {
        return Err(Reason::BadValue);
    }
    if bad_fallback(tally, mode, size) {
        return Err(Reason::BadValue);
    }
    if mode.boundary <= tally.top {
        return Err(Reason::NotRising);
    }
    Ok(())
}

// The rules of a row's numbers; of its gaps it is told whether one is zero and whether one is below the deadline.
// Rule 7 also: the last mode has a fall-back unlike its boundary. Rule 8: a speed that is not above the one before, or is above the last
// boundary. Rule 10: a gap below the deadline.
pub fn judge_row(tally: Tally, row: Row, zero_gap: bool, short_gap: bool) -> Result<(), Reason>
    ensures { result ≡ first_broken (row_rules tally row zero_gap short_gap) }
{
    if last_hangs(tally) {
        return Err(Reason::BadValue);
    }
    if bad_rpm(row.speed) {
        return Err(Reason::BadValue);
    }
    if row.deadline == Ticks(0) {
        return Err(Reason::BadValue);
    }
    if zero_gap {
        return Err(Reason::BadValue);
    }
    if row.speed <= tally.fastest {
        return Err(Reason::NotRising);
    }
    if tally.top < row.speed {
        return Err(Reason::NotRising);
    }
    if short_gap {
        return Err(Reason::ShortGap);
    }
    Ok(())
}

// The rules of a fixed task's numbers, which are all rule 7: a zero, or a jitter at or above the deadline.
pub fn judge_task(task: Task) -> Result<(), Reason>
    ensures { result ≡ first_broken (task_rules task) }
{
    if task.length == Ticks(0) {
        return Err(Reason::BadValue);
    }
    if task.period == Ticks(0) {
        return Err(Reason::BadValue);
    }
    if task.deadline == Ticks(0) {
        return Err(Reason::BadValue);
    }
    if task.deadline <= task.jitter {
        return Err(Reason::BadValue);
    }
    Ok(())
}

// Rule 3: a tag below the last known one, a second field of a kind that stands once, or a required kind passed over.
pub fn out_of_order(last: usize, tag: usize) -> bool
    ensures { result ≡ out_of_order last tag }
{
    if tag < last {
        return true;
    }
    if tag == last {
        return line_of(tag).most <= 1;
    }
    (0..tag).any(|passed| is_missing(last, passed))
}

// A required kind whose tag is above the last known one: no field of it has come.
fn is_missing(last: usize, tag: usize) -> bool
    ensures { result ≡ missing last tag }
{
    last < tag && line_of(tag).required
}

// Rule 5: a length that the tag's line does not allow.
pub fn wrong_length(tag: usize, size: usize) -> bool
    ensures { result ≡ wrong_length tag size }
{
    let line = line_of(tag);
    size < line.shortest || line.longest < size || line.numbers && size % 2 != 0
}

// Rule 5 of a row: a length that is not its head and one gap for each row of the follower set.
pub fn unlike_set(size: usize, followers: u64) -> bool
    ensures { result ≡ unlike_set size followers }
{
    size != Sheet::HEAD + Sheet::GAP * sets::size(followers)
}

// Rule 6: as many of the kind as a sheet may have.
pub fn full_of(tag: usize, count: usize) -> bool
    ensures { result ≡ full tag count }
{
    line_of(tag).most <= count
}

// Rule 7 of a label's byte.
pub fn bad_byte(byte: u8) -> bool
    ensures { result ≡ bad_byte byte }
{
    byte < 0x20 || 0x7E < byte
}

// Rule 7 of a speed.
pub fn bad_rpm(speed: Rpm) -> bool
    ensures { result ≡ bad_rpm speed }
{
    speed == Rpm(0) || Sheet::RPM < speed
}

// Rule 7 of a mode's fall-back, which is judged only where it stands in the field.
fn bad_fallback(tally: Tally, mode: Mode, size: usize) -> bool
    ensures { result ≡ bad_fallback tally mode size }
{
    size != Sheet::MODE
        && (mode.fallback == Rpm(0) || mode.boundary < mode.fallback || mode.fallback < tally.top)
}

// Rule 7 of the last mode, above which there is none: a fall-back unlike its boundary.
fn last_hangs(tally: Tally) -> bool
    ensures { result ≡ last_hangs tally }
{
    tally.fallback != tally.top
}

// Rule 9 of one follower set: it has a row that is not among the sheet's.
pub fn unknown_in(followers: u64, rows: usize) -> bool
    ensures { result ≡ unknown_in followers rows }
{
    sets::next_from(followers, rows).is_some()
}
