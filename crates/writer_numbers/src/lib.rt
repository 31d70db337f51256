// The structs that C is given for what was written and for a sheet's values by number.
#![tactic(auto)]

ghost use Rattle.std.specs.Prelude.{◌≡◌};
ghost use Rattle.writer_numbers.specs.Flat.{flat_written, flat_mode, flat_row, flat_task};

use contents::RowValues;
use fields::refusal::Refusal;
use fields::values::{Mode, Task};

// C has no `Result`: `number` is 0, or the refusal's number with its place, and then `size` is 0.
#[repr(C)]
#[derive(Clone, Copy)]
pub struct WriteForC {
    pub number: u8,
    pub place: usize,
    pub size: usize,
}

#[repr(C)]
#[derive(Clone, Copy)]
pub struct ModeForC {
    pub boundary: u16,
    pub length: u16,
    pub fallback: u16,
}

#[repr(C)]
#[derive(Clone, Copy)]
pub struct RowForC {
    pub speed: u16,
    pub deadline: u16,
    pub followers: u64,
    pub length: u16,
}

#[repr(C)]
#[derive(Clone, Copy)]
pub struct TaskForC {
    pub length: u16,
    pub period: u16,
    pub deadline: u16,
    pub jitter: u16,
}

impl From<Result<usize, Refusal>> for WriteForC {
    ghost from_gives = { λ answer numbers. numbers ≡ flat_written answer };

    fn from(answer: Result<usize, Refusal>) -> WriteForC {
        match answer {
            Ok(size) => WriteForC {
                number: 0,
                place: 0,
                size,
            },
            Err(refusal) => WriteForC {
                number: refusal.number(),
                place: refusal.place,
                size: 0,
            },
        }
    }
}

impl From<Mode> for ModeForC {
    ghost from_gives = { λ mode numbers. numbers ≡ flat_mode mode };

    fn from(mode: Mode) -> ModeForC {
        ModeForC {
            boundary: mode.boundary.0,
            length: mode.length.0,
            fallback: mode.fallback.0,
        }
    }
}

impl From<RowValues> for RowForC {
    ghost from_gives = { λ row numbers. numbers ≡ flat_row row };

    fn from(row: RowValues) -> RowForC {
        RowForC {
            speed: row.speed.0,
            deadline: row.deadline.0,
            followers: row.followers,
            length: row.length.0,
        }
    }
}

impl From<Task> for TaskForC {
    ghost from_gives = { λ task numbers. numbers ≡ flat_task task };

    fn from(task: Task) -> TaskForC {
        TaskForC {
            length: task.length.0,
            period: task.period.0,
            deadline: task.deadline.0,
            jitter: task.jitter.0,
        }
    }
}
