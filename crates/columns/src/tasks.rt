// The rules of fixed tasks that stand in four columns.
ghost use Rattle.std.specs.Prelude.{◌≡◌};
ghost use Rattle.fields.specs.Deciding.{first_broken};
ghost use Rattle.written.specs.Judging.{entry_rules};
ghost use Rattle.written.specs.Lent.{tasks_lent};
ghost use Rattle.written.specs.Values.{TaskEntry};
ghost use Rattle.columns.specs.Counting.{counted};

use crate::cut;
use fields::refusal::Reason;
use fields::table::Kind;
use fields::units::Ticks;
use fields::values::{Tally, Task};
use rules::counting::count_task;
use rules::{judge_field, judge_task};
use written::TaskColumns;

// The tally behind the fixed tasks, or the reason of the first rule that they break.
pub(crate) fn judge_tasks(tasks: TaskColumns, tally: Tally) -> Result<Tally, Reason>
    ensures { result ≡ counted tally (tasks_lent tasks.entry) }
{
    let mut so_far = tally;
    let count = tasks.lengths.len();
    let whole = count
        .min(tasks.periods.len())
        .min(tasks.deadlines.len())
        .min(tasks.jitters.len());
    // One index reads all columns at once; a `zip` of them would be pairs of pairs.
    for at in 0..whole {
        let task = Task {
            length: Ticks(tasks.lengths[at]),
            period: Ticks(tasks.periods[at]),
            deadline: Ticks(tasks.deadlines[at]),
            jitter: Ticks(tasks.jitters[at]),
        };
        judge_one_task(so_far, task)?;
        so_far = count_task(so_far);
    }
    if tasks.periods.len() != count
        || tasks.deadlines.len() != count
        || tasks.jitters.len() != count
    {
        return cut(Kind::TaskField, so_far);
    }
    Ok(so_far)
}

// The rules of one fixed task, whose field takes the shorter form.
fn judge_one_task(tally: Tally, task: Task) -> Result<(), Reason>
    ensures { result ≡ first_broken (entry_rules tally (TaskEntry task)) }
{
    let size = task.short_size();
    judge_field(Kind::TaskField, tally.last, size, false, tally.tasks)?;
    judge_task(task)
}
