// The sheet judged: any bytes are accepted with their values, or refused by the first broken rule.
#![tactic(auto)]

mod judging;
pub mod rows;

ghost use Rattle.std.specs.Prelude.{◌≡◌};
ghost use Rattle.fields.specs.Values.{empty_sheet};
ghost use Rattle.sheet.specs.Judging.{judgement, LabelOf};
ghost use Rattle.sheet.specs.Outline.{head_of, Outlined};

use fields::reader::field_at;
use fields::refusal::Refusal;
use fields::table::Kind;
use fields::values::{Mode, Part, Sheet, Tally, Task};
use judging::{judge_field, keep_place, outline_end, with_field};
use rows::rows_at;

// All of a sheet but its rows.
#[derive(Clone, Copy)]
pub struct Head {
    pub label: Part,
    pub tally: Tally,
    pub modes: [Mode; Sheet::MODES],
    pub tasks: [Task; Sheet::TASKS],
}

impl Head {
    // The head of a sheet of which nothing is read yet.
    pub(crate) fn empty() -> Head
        ensures { result ≡ head_of empty_sheet }
    {
        Head {
            label: Part::NONE,
            tally: Tally::NONE,
            modes: [Mode::NONE; Sheet::MODES],
            tasks: [Task::NONE; Sheet::TASKS],
        }
    }
}

// The values of an accepted sheet, or why the bytes are refused.
pub fn judge(bytes: &[u8]) -> Result<Sheet, Refusal>
    ensures { result ≡ judgement bytes.now }
{
    let mut places = [0usize; Sheet::ROWS];
    let head = outline_of(bytes, &mut places)?;
    // Each array goes into the sheet from a variable: straight from a call or a field it is a form that the proofs do not cover.
    let rows = rows_at(bytes, &places, head.tally.rows);
    let modes = head.modes;
    let tasks = head.tasks;
    Ok(Sheet {
        label: head.label,
        tally: head.tally,
        modes,
        rows,
        tasks,
    })
}

// The bytes judged, with the places of the rows put into an array that is lent: a caller that reads the rows in the file needs no array of them.
pub fn outline_of(bytes: &[u8], places: &mut [usize; Sheet::ROWS]) -> Result<Head, Refusal>
    ensures { Outlined bytes.now places.new result }
{
    // Stored whole, so that the proof has the array's length and no caller is asked for it.
    *places = [0usize; Sheet::ROWS];
    let mut head = Head::empty();
    let mut at: usize = 0;
    loop {
        let field = field_at(bytes, at)?;
        if let Err(reason) = judge_field(bytes, head.tally, field) {
            return Err(Refusal { reason, place: at });
        }
        if field.kind == Kind::EndField {
            return outline_end(bytes, places, head, at, field.next);
        }
        keep_place(places, field, head.tally.rows);
        head = with_field(bytes, head, field);
        at = field.next;
    }
}

// The label, as that part of the caller's bytes; an empty part at their start for a refused sheet.
pub fn label(bytes: &[u8]) -> &[u8]
    ensures { LabelOf bytes.entry result }
{
    let mut places = [0usize; Sheet::ROWS];
    let part = match outline_of(bytes, &mut places) {
        Ok(head) => head.label,
        Err(_) => Part::NONE,
    };
    &bytes[part.start..part.start + part.size]
}
