// The rules of modes that stand in three columns.
ghost use Rattle.std.specs.Prelude.{◌≡◌};
ghost use Rattle.fields.specs.Deciding.{first_broken};
ghost use Rattle.written.specs.Judging.{entry_rules};
ghost use Rattle.written.specs.Lent.{modes_lent};
ghost use Rattle.written.specs.Values.{ModeEntry};
ghost use Rattle.columns.specs.Counting.{counted};

use crate::cut;
use fields::refusal::Reason;
use fields::table::Kind;
use fields::units::{Rpm, Ticks};
use fields::values::{Mode, Tally};
use rules::counting::count_mode;
use rules::{judge_field, judge_mode};
use written::ModeColumns;

// The tally behind the modes, or the reason of the first rule that they break.
pub(crate) fn judge_modes(modes: ModeColumns, tally: Tally) -> Result<Tally, Reason>
    ensures { result ≡ counted tally (modes_lent modes.entry) }
{
    let mut so_far = tally;
    let count = modes.boundaries.len();
    let whole = count.min(modes.lengths.len()).min(modes.fallbacks.len());
    // One index reads all columns at once; a `zip` of them would be pairs of pairs.
    for at in 0..whole {
        let mode = Mode {
            boundary: Rpm(modes.boundaries[at]),
            length: Ticks(modes.lengths[at]),
            fallback: Rpm(modes.fallbacks[at]),
        };
        judge_one_mode(so_far, mode)?;
        so_far = count_mode(so_far, mode);
    }
    if modes.lengths.len() != count || modes.fallbacks.len() != count {
        return cut(Kind::ModeField, so_far);
    }
    Ok(so_far)
}

// The rules of one mode, whose field takes the shorter form.
fn judge_one_mode(tally: Tally, mode: Mode) -> Result<(), Reason>
    ensures { result ≡ first_broken (entry_rules tally (ModeEntry mode)) }
{
    let size = mode.short_size();
    judge_field(Kind::ModeField, tally.last, size, false, tally.modes)?;
    judge_mode(tally, mode, size)
}
