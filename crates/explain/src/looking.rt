// One pass over the intervals up to a horizon: the first overrun, or the smallest margin.
ghost use Rattle.std.specs.Prelude.{◌+◌, ◌*◌, ◌≤◌, ◌≡◌, length};
ghost use Rattle.meaning.specs.Demand.{longest_time};
ghost use Rattle.explain.specs.Looking.{IsTightest, smallest_at};

use overruns::running::Dues;
use overruns::tasks::FixedTasks;
use tables::interval::demand_of;

// There is no interval; the smallest margin and the first interval that has it; or the first interval that is overrun, with fixed demand there.
#[derive(Clone, Copy)]
pub(crate) enum Tightest {
    Nothing,
    Margin { margin: u64, interval: usize },
    Overrun { interval: usize, fixed: u64 },
}

// One interval after the other, with fixed demand running along. The smallest margin so far, at first one above all, gives way only to a smaller one, so that the earliest stays. Interval 0 is none yet: an option of both numbers would be tested at each turn.
pub(crate) fn look_over(tasks: &FixedTasks, n: usize, cells: &[u32], horizon: usize) -> Tightest
    requires in_range { horizon ≤ longest_time }
    requires room { n * (horizon + 1) ≤ length cells.now }
    ensures { IsTightest n tasks.now.tasks tasks.now.count cells.now horizon result }
{
    let mut dues = Dues::new(&tasks.tasks);
    let mut fixed: u64 = 0;
    let mut least = horizon as u64 + 1;
    let mut at: usize = 0;
    for t in 1..=horizon {
        fixed += dues.advance(&tasks.tasks, tasks.count, t);
        let work = demand_of(cells, n, t) as u64 + fixed;
        if (t as u64) < work {
            return Tightest::Overrun { interval: t, fixed };
        }
        let margin = t as u64 - work;
        if margin < least {
            least = margin;
            at = t;
        }
    }
    smallest(least, at)
}

// The smallest margin and its interval, or nothing where there was none.
fn smallest(margin: u64, interval: usize) -> Tightest
    ensures { result ≡ smallest_at margin interval }
{
    if interval == 0 {
        return Tightest::Nothing;
    }
    Tightest::Margin { margin, interval }
}
