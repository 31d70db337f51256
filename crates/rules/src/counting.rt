// What a field that breaks no rule adds to the tally.
ghost use Rattle.std.specs.Prelude.{◌≡◌, ◌<◌};
ghost use Rattle.fields.specs.Limits.{mode_limit, row_limit, task_limit};
ghost use Rattle.rules.specs.Counting.{count_label, count_mode, count_row, count_task};

use fields::units::Rpm;
use fields::values::{Mode, Tally};

// The label is read.
pub fn count_label(tally: Tally) -> Tally
    ensures { result ≡ count_label tally }
{
    Tally { last: 1, ..tally }
}

// One mode more, with its boundary and fall-back.
pub fn count_mode(tally: Tally, mode: Mode) -> Tally
    requires { tally.modes < mode_limit }
    ensures { result ≡ count_mode tally mode }
{
    Tally {
        last: 2,
        modes: tally.modes + 1,
        top: mode.boundary,
        fallback: mode.fallback,
        ..tally
    }
}

// One row more, with its speed.
pub fn count_row(tally: Tally, speed: Rpm) -> Tally
    requires { tally.rows < row_limit }
    ensures { result ≡ count_row tally speed }
{
    Tally {
        last: 3,
        rows: tally.rows + 1,
        fastest: speed,
        ..tally
    }
}

// One fixed task more.
pub fn count_task(tally: Tally) -> Tally
    requires { tally.tasks < task_limit }
    ensures { result ≡ count_task tally }
{
    Tally {
        last: 4,
        tasks: tally.tasks + 1,
        ..tally
    }
}
