// The values of a sheet as columns that a caller lends. What bytes they are written as stands in specs/.
#![tactic(auto)]

// The modes: boundaries, job lengths and fall-backs.
#[derive(Clone, Copy)]
pub struct ModeColumns<'a> {
    pub boundaries: &'a [u16],
    pub lengths: &'a [u16],
    pub fallbacks: &'a [u16],
}

// The rows: speeds, deadlines and follower sets, and the gaps, those of each row behind those of the row before.
#[derive(Clone, Copy)]
pub struct RowColumns<'a> {
    pub speeds: &'a [u16],
    pub deadlines: &'a [u16],
    pub sets: &'a [u64],
    pub gaps: &'a [u16],
}

// The fixed tasks: lengths, periods, deadlines and jitters.
#[derive(Clone, Copy)]
pub struct TaskColumns<'a> {
    pub lengths: &'a [u16],
    pub periods: &'a [u16],
    pub deadlines: &'a [u16],
    pub jitters: &'a [u16],
}

// All values of a sheet.
#[derive(Clone, Copy)]
pub struct Columns<'a> {
    pub label: &'a [u8],
    pub modes: ModeColumns<'a>,
    pub rows: RowColumns<'a>,
    pub tasks: TaskColumns<'a>,
}
