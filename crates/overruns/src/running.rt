// Fixed demand that runs along from interval to interval, so that none takes a division.
ghost use Rattle.std.specs.Prelude.{◌≡◌, ◌+◌, ◌≤◌, length};
ghost use Rattle.meaning.specs.Demand.{longest_time};
ghost use Rattle.fields.specs.Limits.{task_limit};
ghost use Rattle.overruns.specs.Releases.{Waiting, AdvancedInPlace};

use crate::tasks::first_due;
use fields::values::{Sheet, Task};

// When the next job of each task falls due. Any tasks will do, those of an array that are not counted too.
#[derive(Clone, Copy)]
pub struct Dues {
    pub next: [usize; Sheet::TASKS],
}

impl Dues {
    // The tasks before the first interval: each waits for its first job.
    pub fn new(tasks: &[Task; Sheet::TASKS]) -> Dues
        ensures waiting { Waiting tasks.now task_limit result.next }
        ensures room { length result.next ≡ task_limit }
    {
        let mut next = [0usize; Sheet::TASKS];
        for number in 0..Sheet::TASKS {
            let task = tasks[number];
            next[number] = first_due(task.deadline, task.jitter);
        }
        Dues { next }
    }

    // What falls due at t, of the first tasks. A task whose job does so waits for its next one, a period later.
    pub fn advance(&mut self, tasks: &[Task; Sheet::TASKS], count: usize, t: usize) -> u64
        requires few_tasks { count ≤ task_limit }
        requires in_range { t ≤ longest_time }
        ensures { AdvancedInPlace tasks.now count self.old.next self.new.next t result }
    {
        let mut work: u64 = 0;
        for number in 0..count {
            if self.next[number] == t {
                let task = tasks[number];
                work += task.length.0 as u64;
                self.next[number] = t + task.period.0 as usize;
            }
        }
        work
    }
}
