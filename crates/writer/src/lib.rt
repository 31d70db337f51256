// A sheet written from its values, which the caller lends as columns.
#![tactic(auto)]

ghost use Rattle.std.specs.Prelude.{◌≡◌, ◌*◌, ◌≤◌, length};
ghost use Rattle.fields.specs.Limits.{mode_limit, row_limit, task_limit, label_limit};
ghost use Rattle.written.specs.Judging.{band_count, jitter_count, sheet_size};
ghost use Rattle.written.specs.Lent.{values_lent};
ghost use Rattle.writer.specs.Calls.{WriteCall};

use columns::judge_values;
use fields::refusal::{Reason, Refusal};
use fields::values::Sheet;
use putting::put_sheet;
use written::{Columns, ModeColumns};

// Writes the sheet of the values at the front of the output, and answers how many bytes it has. Rule 15: an output that is shorter. A refusal
// writes nothing, and has place 0.
pub fn write(columns: Columns, output: &mut [u8]) -> Result<usize, Refusal>
    ensures { WriteCall (values_lent columns.entry) output.old result output.new }
{
    judge_values(columns)?;
    let size = size_of(
        columns,
        bands(columns.modes),
        jittered(columns.tasks.jitters),
    );
    if output.len() < size {
        return Err(Refusal::from(Reason::ShortOutput));
    }
    put_sheet(output, columns);
    Ok(size)
}

// How many modes have a band: a fall-back that is not the boundary.
fn bands(modes: ModeColumns) -> usize
    ensures { result ≡ band_count modes.entry.boundaries.now modes.entry.fallbacks.now }
{
    modes
        .boundaries
        .iter()
        .zip(modes.fallbacks)
        .filter(|(boundary, fallback)| fallback != boundary)
        .count()
}

// How many fixed tasks have a jitter that is not 0.
fn jittered(jitters: &[u16]) -> usize
    ensures { result ≡ jitter_count jitters.now }
{
    jitters.iter().filter(|jitter| **jitter != 0).count()
}

// How many bytes a sheet has: each field has three before its content, and the end field has no more.
fn size_of(columns: Columns, bands: usize, jitters: usize) -> usize
    requires { (length columns.label.now ≤ label_limit) × (length columns.modes.boundaries.now ≤ mode_limit) × (bands ≤ mode_limit) × (length columns.rows.speeds.now ≤ row_limit) × (length columns.rows.gaps.now ≤ row_limit * row_limit) × (length columns.tasks.lengths.now ≤ task_limit) × (jitters ≤ task_limit) }
    ensures { let values = values_lent columns.entry in result ≡ sheet_size (length values.label) (length values.boundaries) bands (length values.speeds) (length values.gaps) (length values.task_lengths) jitters }
{
    6 + columns.label.len()
        + (3 + Sheet::MODE) * columns.modes.boundaries.len()
        + Sheet::FALLBACK * bands
        + (3 + Sheet::HEAD) * columns.rows.speeds.len()
        + Sheet::GAP * columns.rows.gaps.len()
        + (3 + Sheet::TASK) * columns.tasks.lengths.len()
        + Sheet::JITTER * jitters
}
