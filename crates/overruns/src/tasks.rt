// The fixed tasks of a sheet, and what they ask for at an interval.
ghost use Rattle.std.specs.Prelude.{◌≡◌, ◌+◌, ◌-◌, ◌*◌, ◌/◌, ◌≤◌, ◌<◌, get_or};
ghost use Rattle.meaning.specs.Demand.{longest_time};
ghost use Rattle.meaning.specs.Fixed.{fixed_of, fixed_sum};
ghost use Rattle.fields.specs.Limits.{task_limit};
ghost use Rattle.fields.specs.Values.{no_task};
ghost use Rattle.sheet.specs.Meaning.{times_of};
ghost use Rattle.sheet.specs.Proper.{ProperTask};
ghost use Rattle.overruns.specs.Releases.{counted_tasks, ProperTasks, first_due};

use fields::units::Ticks;
use fields::values::{Sheet, Task};

// The fixed tasks of an accepted sheet: the first so many of an array, since there is no heap.
#[derive(Clone, Copy)]
pub struct FixedTasks {
    pub tasks: [Task; Sheet::TASKS],
    pub count: usize,
    pub ghost proper: { ProperTasks tasks count },
}

impl FixedTasks {
    // The first tasks of an array, as many as are counted.
    pub fn new(tasks: [Task; Sheet::TASKS], count: usize) -> FixedTasks
        requires { ProperTasks tasks count }
        ensures { (result.tasks ≡ tasks) × (result.count ≡ count) }
    {
        FixedTasks { tasks, count }
    }

    // The task of a number.
    pub fn task(&self, number: usize) -> Task
        requires { number < self.now.count }
        ensures { result ≡ get_or self.now.tasks number no_task }
    {
        self.tasks[number]
    }

    // Fixed demand at t.
    pub fn demand_at(&self, t: usize) -> u64
        requires { t ≤ longest_time }
        ensures { result ≡ fixed_sum (counted_tasks self.now.tasks self.now.count) t }
    {
        let mut sum: u64 = 0;
        for number in 0..self.count {
            sum += fixed_of(self.task(number), t);
        }
        sum
    }
}

// Fixed demand of one task at t.
pub fn fixed_of(task: Task, t: usize) -> u64
    requires proper_task { ProperTask task }
    requires in_range { t ≤ longest_time }
    ensures { (result ≡ fixed_of (times_of task) t) × (result ≤ longest_time * (longest_time + 1)) }
{
    let first = first_due(task.deadline, task.jitter);
    if t < first {
        return 0;
    }
    let jobs = 1 + whole_periods(t - first, task.period);
    task.length.0 as u64 * jobs as u64
}

// When a task's first job falls due: in an interval that starts as it is released, as late as it can be, the deadline less the jitter after the start.
// Where the jitter is longer, which it is in no accepted sheet, it is 0.
pub fn first_due(deadline: Ticks, jitter: Ticks) -> usize
    ensures { result ≡ deadline.0 - jitter.0 }
{
    deadline.0.saturating_sub(jitter.0) as usize
}

// How many whole periods a time has.
fn whole_periods(time: usize, period: Ticks) -> usize
    requires some { 1 ≤ period.0 }
    requires in_range { time ≤ longest_time }
    ensures { result ≡ time / period.0 }
{
    time / (period.0 as usize)
}
