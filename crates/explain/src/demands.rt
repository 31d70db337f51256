// What each fixed task asks for at an interval.
ghost use Rattle.std.specs.Prelude.{◌≡◌, ◌≤◌};
ghost use Rattle.meaning.specs.Demand.{longest_time};
ghost use Rattle.overruns.specs.Releases.{counted_tasks};
ghost use Rattle.explain.specs.Calls.{all_demands};

use fields::values::Sheet;
use overruns::tasks::{FixedTasks, fixed_of};

// The demand of each fixed task at t in file order, 0 past the last.
pub(crate) fn demands_at(tasks: &FixedTasks, t: usize) -> [u64; Sheet::TASKS]
    requires { t ≤ longest_time }
    ensures { result ≡ all_demands (counted_tasks tasks.now.tasks tasks.now.count) t }
{
    let mut demands = [0u64; Sheet::TASKS];
    for number in 0..tasks.count {
        demands[number] = fixed_of(tasks.task(number), t);
    }
    demands
}
