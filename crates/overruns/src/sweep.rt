// The first overrun up to a horizon, from either table and the fixed demand that runs along.
ghost use Rattle.std.specs.Prelude.{◌≡◌, Bool, List, ℕ, ◌+◌, ◌*◌, ◌^◌, ◌≤◌, ◌<◌, length};
ghost use Rattle.meaning.specs.Demand.{longest_time};
ghost use Rattle.tables.specs.Testing.{IsTest, over_at, reached_at};
ghost use Rattle.tables.proofs.Testing.{interval_decides, amount_decides};
ghost use Rattle.overruns.specs.Sweeping.{IsSwept};

use crate::running::Dues;
use crate::tasks::FixedTasks;
use tables::amount::shortest_of;
use tables::interval::demand_of;
use tables::{ByAmount, ByInterval, Table};

// A table that can be swept: by its lines and fixed demand an interval is tested.
pub trait Sweepable: Table {
    ghost overrun_at: { ℕ → List ℕ → ℕ → ℕ → Bool };

    // Whether an interval is overrun, by the line of the table and fixed demand.
    fn overrun_at(cells: &[u32], n: usize, t: usize, fixed: u64) -> bool
        requires room { n * (t + 1) ≤ length cells.now }
        requires in_range { t ≤ longest_time }
        requires fixed_bound { fixed < 2 ^ 48 }
        ensures { result ≡ overrun_at n cells.now t fixed };

    // The test is right.
    ghost is_test: { IsTest Self.right overrun_at };
}

impl Sweepable for ByInterval {
    ghost overrun_at = { over_at };

    ghost is_test = { interval_decides };

    // Whether the largest cell of the line t and fixed demand are more than t.
    fn overrun_at(cells: &[u32], n: usize, t: usize, fixed: u64) -> bool {
        (t as u64) < demand_of(cells, n, t) as u64 + fixed
    }
}

impl Sweepable for ByAmount {
    ghost overrun_at = { reached_at };

    ghost is_test = { amount_decides };

    // Whether fixed demand alone is more than t, or what it leaves of t and one more is reached by t.
    fn overrun_at(cells: &[u32], n: usize, t: usize, fixed: u64) -> bool {
        let whole = t as u64;
        if whole < fixed {
            return true;
        }
        let left = (whole - fixed) as usize;
        shortest_of(cells, n, left + 1) as usize <= t
    }
}

// The first interval up to the horizon that is overrun. One interval comes after the other, with the line of a table and fixed demand running along.
pub fn sweep<T: Sweepable>(
    tasks: &FixedTasks,
    n: usize,
    cells: &[u32],
    horizon: usize,
) -> Option<usize>
    requires in_range { horizon ≤ longest_time }
    requires room { n * (horizon + 1) ≤ length cells.now }
    ensures { IsSwept T.right n tasks.now.tasks tasks.now.count cells.now horizon result }
{
    let mut dues = Dues::new(&tasks.tasks);
    let mut fixed: u64 = 0;
    for t in 1..=horizon {
        fixed += dues.advance(&tasks.tasks, tasks.count, t);
        if T::overrun_at(cells, n, t, fixed) {
            return Some(t);
        }
    }
    None
}
