// The rules of rows that stand in three columns, with their gaps one behind the other in a fourth.
ghost use Rattle.std.specs.Prelude.{◌≡◌, ◌≤◌, length, get_or};
ghost use Rattle.sets.specs.Sets.{width};
ghost use Rattle.fields.specs.Deciding.{first_broken};
ghost use Rattle.written.specs.Judging.{one_shorter, entry_rules, unknown_among};
ghost use Rattle.written.specs.Lent.{rows_lent};
ghost use Rattle.written.specs.Values.{RowEntry};
ghost use Rattle.columns.specs.Counting.{counted};

use crate::cut;
use fields::refusal::Reason;
use fields::table::Kind;
use fields::units::{Rpm, Ticks};
use fields::values::{Row, Sheet, Tally};
use rules::counting::count_row;
use rules::{judge_field, judge_row, unknown_in, unlike_set};
use written::RowColumns;

// The tally behind the rows, or the reason of the first rule that they break. A row takes as many gaps as its set has rows, and none may be
// left over.
pub(crate) fn judge_rows(rows: RowColumns, tally: Tally) -> Result<Tally, Reason>
    ensures { result ≡ counted tally (rows_lent rows.entry) }
{
    let mut so_far = tally;
    let mut left = rows.gaps;
    let count = rows.speeds.len();
    let whole = count.min(rows.deadlines.len()).min(rows.sets.len());
    // One index reads all columns at once; a `zip` of them would be pairs of pairs.
    for at in 0..whole {
        let row = Row {
            speed: Rpm(rows.speeds[at]),
            deadline: Ticks(rows.deadlines[at]),
            followers: rows.sets[at],
            gaps: 0,
        };
        let (gaps, others) = left.split_at(sets::size(row.followers).min(left.len()));
        judge_one_row(so_far, row, gaps)?;
        so_far = count_row(so_far, row.speed);
        left = others;
    }
    if rows.deadlines.len() != count || rows.sets.len() != count || !left.is_empty() {
        return cut(Kind::RowField, so_far);
    }
    Ok(so_far)
}

// The rules of one row with its gaps.
fn judge_one_row(tally: Tally, row: Row, gaps: &[u16]) -> Result<(), Reason>
    requires { length gaps.now ≤ width }
    ensures { result ≡ first_broken (entry_rules tally (RowEntry row.speed row.deadline row.followers gaps.now)) }
{
    let size = Sheet::HEAD + Sheet::GAP * gaps.len();
    let unlike = unlike_set(size, row.followers);
    judge_field(Kind::RowField, tally.last, size, unlike, tally.rows)?;
    let zero_gap = one_shorter(gaps, Ticks(1));
    let short_gap = one_shorter(gaps, row.deadline);
    judge_row(tally, row, zero_gap, short_gap)
}

// Rule 7 and rule 10 of gaps. It does not stop at the first that is shorter, so that the compiler can look at several at once.
fn one_shorter(gaps: &[u16], bound: Ticks) -> bool
    ensures { result ≡ one_shorter gaps.now bound }
{
    let mut shorter = false;
    for gap in gaps {
        shorter |= Ticks(*gap) < bound;
    }
    shorter
}

// Rule 9: whether the set of one of `count` rows names a row that does not exist.
pub(crate) fn unknown_among(sets: &[u64], count: usize) -> bool
    ensures { result ≡ unknown_among sets.now count }
{
    (0..count).any(|number| unknown_in(set_of(sets, number), count))
}

// The follower set of a number, an empty one past the end.
fn set_of(sets: &[u64], number: usize) -> u64
    ensures { result ≡ get_or sets.now number 0 }
{
    sets.get(number).copied().unwrap_or(0)
}
