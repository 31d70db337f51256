// The calls for C as calls for Rattle: numbers and slices in, a plain struct of numbers out. `marnipode_c` exports each of them.
#![tactic(auto)]

ghost use Rattle.std.specs.Prelude.{◌≡◌};
ghost use Rattle.sheet.specs.Judging.{judged};
ghost use Rattle.fields.specs.Reading.{field_at};
ghost use Rattle.numbers.specs.Flat.{flat_judged, flat_label, flat_step};
ghost use Rattle.contents.specs.Contents.{mode_numbered, row_numbered, gap_numbered, task_numbered};
ghost use Rattle.written.specs.Values.{values_from};
ghost use Rattle.writer_numbers.specs.Flat.{flat_mode, flat_row, flat_task};
ghost use Rattle.marnipode.specs.Exported.{DemandExport, MarginExport, ShortestExport, VerdictByIntervalExport, VerdictByAmountExport, ExplainExport, WriteExport};

use explain_numbers::ExplainForC;
use fields::values::Sheet;
use numbers::{DemandForC, FieldForC, JudgeForC, LabelForC, MarginForC, ShortestForC, VerdictForC};
use writer_numbers::{ModeForC, RowForC, TaskForC, WriteForC};
use written::{Columns, ModeColumns, RowColumns, TaskColumns};

pub fn marnipode_judge(bytes: &[u8]) -> JudgeForC
    ensures { result ≡ flat_judged (judged bytes.now) }
{
    let mut places = [0usize; Sheet::ROWS];
    JudgeForC::from(sheet::outline_of(bytes, &mut places))
}

// A returned part of the bytes cannot be handed to C, so the label is its place and its size.
pub fn marnipode_label(bytes: &[u8]) -> LabelForC
    ensures { result ≡ flat_label (judged bytes.now) }
{
    let mut places = [0usize; Sheet::ROWS];
    LabelForC::from(sheet::outline_of(bytes, &mut places))
}

pub fn marnipode_field_at(bytes: &[u8], at: usize) -> FieldForC
    ensures { result ≡ flat_step (field_at bytes.now at) }
{
    FieldForC::from(fields::reader::field_at(bytes, at))
}

pub fn marnipode_demand(
    bytes: &[u8],
    interval: u64,
    cells: &mut [u32],
    witness: &mut [u8],
) -> DemandForC
    ensures { DemandExport bytes.now interval cells.old witness.old result cells.new witness.new }
{
    DemandForC::from(desk::demand(bytes, interval, cells, witness))
}

pub fn marnipode_margin(bytes: &[u8], interval: u64, cells: &mut [u32]) -> MarginForC
    ensures { MarginExport bytes.now interval cells.old result cells.new }
{
    MarginForC::from(desk::margin(bytes, interval, cells))
}

pub fn marnipode_shortest(bytes: &[u8], amount: u64, cells: &mut [u32]) -> ShortestForC
    ensures { ShortestExport bytes.now amount cells.old result cells.new }
{
    ShortestForC::from(desk::shortest(bytes, amount, cells))
}

pub fn marnipode_verdict_by_interval(bytes: &[u8], horizon: u64, cells: &mut [u32]) -> VerdictForC
    ensures { VerdictByIntervalExport bytes.now horizon cells.old result cells.new }
{
    VerdictForC::from(desk::verdict_by_interval(bytes, horizon, cells))
}

pub fn marnipode_verdict_by_amount(bytes: &[u8], horizon: u64, cells: &mut [u32]) -> VerdictForC
    ensures { VerdictByAmountExport bytes.now horizon cells.old result cells.new }
{
    VerdictForC::from(desk::verdict_by_amount(bytes, horizon, cells))
}

pub fn marnipode_explain(
    bytes: &[u8],
    horizon: u64,
    cells: &mut [u32],
    witness: &mut [u8],
) -> ExplainForC
    ensures { ExplainExport bytes.now horizon cells.old witness.old result cells.new witness.new }
{
    ExplainForC::from(explain::explain(bytes, horizon, cells, witness))
}

// The columns come one by one; the header has a struct of them, and a function that hands them on.
pub fn marnipode_write_columns(
    label: &[u8],
    boundaries: &[u16],
    lengths: &[u16],
    fallbacks: &[u16],
    speeds: &[u16],
    deadlines: &[u16],
    sets: &[u64],
    gaps: &[u16],
    task_lengths: &[u16],
    task_periods: &[u16],
    task_deadlines: &[u16],
    task_jitters: &[u16],
    output: &mut [u8],
) -> WriteForC
    ensures { WriteExport (values_from label.now boundaries.now lengths.now fallbacks.now speeds.now deadlines.now sets.now gaps.now task_lengths.now task_periods.now task_deadlines.now task_jitters.now) output.old result output.new }
{
    let modes = ModeColumns {
        boundaries,
        lengths,
        fallbacks,
    };
    let rows = RowColumns {
        speeds,
        deadlines,
        sets,
        gaps,
    };
    let tasks = TaskColumns {
        lengths: task_lengths,
        periods: task_periods,
        deadlines: task_deadlines,
        jitters: task_jitters,
    };
    let columns = Columns {
        label,
        modes,
        rows,
        tasks,
    };
    WriteForC::from(writer::write(columns, output))
}

pub fn marnipode_mode(bytes: &[u8], number: usize) -> ModeForC
    ensures { result ≡ flat_mode (mode_numbered bytes.now number) }
{
    ModeForC::from(contents::mode_numbered(bytes, number))
}

pub fn marnipode_row(bytes: &[u8], number: usize) -> RowForC
    ensures { result ≡ flat_row (row_numbered bytes.now number) }
{
    RowForC::from(contents::row_numbered(bytes, number))
}

pub fn marnipode_gap(bytes: &[u8], from: usize, to: usize) -> u16
    ensures { result ≡ (gap_numbered bytes.now from to).0 }
{
    let gap = contents::gap_numbered(bytes, from, to);
    gap.0
}

pub fn marnipode_task(bytes: &[u8], number: usize) -> TaskForC
    ensures { result ≡ flat_task (task_numbered bytes.now number) }
{
    TaskForC::from(contents::task_numbered(bytes, number))
}
