// A sheet put at the front of lent output: each field is written into the rest of it, from the current place on.
#![tactic(auto)]

mod kinds;
mod pieces;

ghost use Rattle.std.specs.Prelude.{◌≡◌, ◌≤◌, length};
ghost use Rattle.fields.specs.Deciding.{first_broken};
ghost use Rattle.fields.specs.Limits.{label_limit};
ghost use Rattle.written.specs.Judging.{no_tally, entries_rules};
ghost use Rattle.written.specs.Lent.{values_lent};
ghost use Rattle.written.specs.Values.{LabelEntry, entries};
ghost use Rattle.written.specs.Written.{field_of, written};
ghost use Rattle.putting.specs.Putting.{Narrow, Put};

use fields::table::Kind;
use kinds::{put_modes, put_rows, put_tasks};
use pieces::{put_head, put_text};
use written::Columns;

// The whole sheet, of values that break no rule of an entry.
#[tactic(auto, using(crate::proofs::Whole::whole_long))]
pub fn put_sheet(out: &mut [u8], columns: Columns)
    requires room { length (written (values_lent columns)) ≤ length out.old }
    requires kept { first_broken (entries_rules no_tally (entries (values_lent columns))) ≡ Ok tt }
    requires narrow { Narrow columns.rows.sets.now }
    ensures { Put (written (values_lent columns.entry)) out.old out.new }
{
    let mut at = put_label(out, columns.label);
    at += put_modes(&mut out[at..], columns.modes);
    at += put_rows(&mut out[at..], columns.rows);
    at += put_tasks(&mut out[at..], columns.tasks);
    put_head(&mut out[at..], Kind::EndField, 0);
}

// The label's field, and how many bytes it has.
#[tactic(auto, unfolding(written::specs::Written::content_of))]
fn put_label(out: &mut [u8], label: &[u8]) -> usize
    requires room { length (field_of (LabelEntry label.now)) ≤ length out.old }
    requires short { length label.now ≤ label_limit }
    ensures size { result ≡ length (field_of (LabelEntry label.now)) }
    ensures put { Put (field_of (LabelEntry label.now)) out.old out.new }
{
    put_head(out, Kind::LabelField, label.len());
    put_text(&mut out[3..], label);
    3 + label.len()
}
