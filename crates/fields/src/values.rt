// The values of a sheet: its limits, what is counted while it is read, and its modes, rows and fixed tasks.
ghost use Rattle.std.specs.Prelude.{◌≡◌};
ghost use Rattle.fields.specs.Values.{empty_sheet, short_size, short_task_size};

use crate::units::{Rpm, Ticks};

// A part of the file: where it starts and how many bytes it has.
#[derive(Clone, Copy)]
pub struct Part {
    pub start: usize,
    pub size: usize,
}

impl Part {
    // An empty part, at the start.
    pub const NONE: Part = Part { start: 0, size: 0 };
}

// The job length of speeds up to a boundary, and the fall-back: down to it an engine that slows down can still be in the next mode.
#[derive(Clone, Copy)]
pub struct Mode {
    pub boundary: Rpm,
    pub length: Ticks,
    pub fallback: Rpm,
}

impl Mode {
    // A mode of zeros. An array of modes holds it past the modes of the sheet, as those of rows and of fixed tasks hold their own `NONE`.
    pub const NONE: Mode = Mode {
        boundary: Rpm(0),
        length: Ticks(0),
        fallback: Rpm(0),
    };

    // How many bytes its shorter form has: a fall-back only where it is not the boundary.
    pub fn short_size(self) -> usize
        ensures { result ≡ short_size self }
    {
        if self.fallback == self.boundary {
            return Sheet::MODE;
        }
        Sheet::MODE + Sheet::FALLBACK
    }
}

// A speed, its deadline, the set of rows that may follow, and the place in the file of the gaps to them.
#[derive(Clone, Copy)]
pub struct Row {
    pub speed: Rpm,
    pub deadline: Ticks,
    pub followers: u64,
    pub gaps: usize,
}

impl Row {
    pub const NONE: Row = Row {
        speed: Rpm(0),
        deadline: Ticks(0),
        followers: 0,
        gaps: 0,
    };
}

// A fixed-period task. Each of its jobs is released up to the jitter after its clock.
#[derive(Clone, Copy)]
pub struct Task {
    pub length: Ticks,
    pub period: Ticks,
    pub deadline: Ticks,
    pub jitter: Ticks,
}

impl Task {
    pub const NONE: Task = Task {
        length: Ticks(0),
        period: Ticks(0),
        deadline: Ticks(0),
        jitter: Ticks(0),
    };

    // How many bytes its shorter form has: a jitter only where it is not 0.
    pub fn short_size(self) -> usize
        ensures { result ≡ short_task_size self }
    {
        if self.jitter == Ticks(0) {
            return Sheet::TASK;
        }
        Sheet::TASK + Sheet::JITTER
    }
}

// What the rules know of the fields before: the last known tag, how many of each kind, the last boundary with its fall-back, and the last speed.
#[derive(Clone, Copy)]
pub struct Tally {
    // A tag and no kind: rule 3 compares tags as they stand in the file (`out_of_order` of the crate `rules`).
    pub last: usize,
    pub modes: usize,
    pub rows: usize,
    pub tasks: usize,
    pub top: Rpm,
    pub fallback: Rpm,
    pub fastest: Rpm,
}

impl Tally {
    // No field has come yet.
    pub const NONE: Tally = Tally {
        last: 0,
        modes: 0,
        rows: 0,
        tasks: 0,
        top: Rpm(0),
        fallback: Rpm(0),
        fastest: Rpm(0),
    };
}

// The arrays hold zeros past what the tally counts.
#[derive(Clone, Copy)]
pub struct Sheet {
    pub label: Part,
    pub tally: Tally,
    pub modes: [Mode; Sheet::MODES],
    pub rows: [Row; Sheet::ROWS],
    pub tasks: [Task; Sheet::TASKS],
}

impl Sheet {
    // The most modes, rows and fixed tasks of a sheet.
    pub const MODES: usize = 8;

    pub const ROWS: usize = 32;

    pub const TASKS: usize = 16;
    // The highest speed, and the longest time.
    pub const RPM: Rpm = Rpm(20000);

    pub const TICKS: Ticks = Ticks(65535);
    // The longest label.
    pub const LABEL: usize = 32;
    // The bytes of a mode before its fall-back, and in its fall-back.
    pub const MODE: usize = 4;

    pub const FALLBACK: usize = 2;
    // The bytes of a fixed task before its jitter, and in its jitter.
    pub const TASK: usize = 6;

    pub const JITTER: usize = 2;
    // The bytes of a row before its gaps, and in each gap.
    pub const HEAD: usize = 8;

    pub const GAP: usize = 2;

    // A sheet of which nothing is read yet.
    pub fn empty() -> Sheet
        ensures { result ≡ empty_sheet }
    {
        Sheet {
            label: Part::NONE,
            tally: Tally::NONE,
            modes: [Mode::NONE; Sheet::MODES],
            rows: [Row::NONE; Sheet::ROWS],
            tasks: [Task::NONE; Sheet::TASKS],
        }
    }
}
