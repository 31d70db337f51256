// The reader's rules on values that a caller lends as columns, tried before a byte of them is written.
#![tactic(auto)]

mod mode_columns;
mod rows;
mod tasks;

ghost use Rattle.std.specs.Prelude.{◌≡◌, [], ◌∷◌};
ghost use Rattle.fields.specs.Deciding.{first_broken};
ghost use Rattle.fields.specs.Fields.{tag_of};
ghost use Rattle.written.specs.Judging.{entry_rules, end_rules, values_rules};
ghost use Rattle.written.specs.Lent.{values_lent};
ghost use Rattle.written.specs.Values.{LabelEntry, CutEntry};
ghost use Rattle.columns.specs.Counting.{counted};

use fields::refusal::Reason;
use fields::table::Kind;
use fields::values::Tally;
use mode_columns::judge_modes;
use rows::{judge_rows, unknown_among};
use rules::counting::count_label;
use rules::judge_field;
use rules::text::judge_text;
use tasks::judge_tasks;
use written::Columns;

// Refused as a reader would refuse the written values.
pub fn judge_values(columns: Columns) -> Result<(), Reason>
    ensures { result ≡ first_broken (values_rules (values_lent columns.entry)) }
{
    judge_label(columns.label, Tally::NONE)?;
    let tally = count_label(Tally::NONE);
    let tally = judge_modes(columns.modes, tally)?;
    let tally = judge_rows(columns.rows, tally)?;
    let tally = judge_tasks(columns.tasks, tally)?;
    judge_end(tally, columns.rows.sets)
}

// The rules of a label.
fn judge_label(label: &[u8], tally: Tally) -> Result<(), Reason>
    ensures { result ≡ first_broken (entry_rules tally (LabelEntry label.now)) }
{
    judge_field(Kind::LabelField, tally.last, label.len(), false, 0)?;
    judge_text(label, 0, label.len())
}

// The rules of the end field.
fn judge_end(tally: Tally, sets: &[u64]) -> Result<(), Reason>
    ensures { result ≡ first_broken (end_rules tally sets.now) }
{
    judge_field(Kind::EndField, tally.last, 0, false, 0)?;
    if unknown_among(sets, tally.rows) {
        return Err(Reason::UnknownFollower);
    }
    Ok(())
}

// Where the columns of a kind part: a field without content, which is refused.
pub(crate) fn cut(kind: Kind, tally: Tally) -> Result<Tally, Reason>
    ensures { result ≡ counted tally (CutEntry (tag_of kind) ∷ []) }
{
    judge_field(kind, tally.last, 0, false, 0)?;
    Ok(tally)
}
