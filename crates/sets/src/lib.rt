// Sets of rows as numbers, bit j for row j: how many rows one has, how many of them stand below a row, and which comes next.
#![tactic(auto)]

ghost use Rattle.std.specs.Prelude.{◌≡◌, ◌-◌, ◌≤◌};
ghost use Rattle.sets.specs.Sets.{width, below, next_in};

// How many bits a set has.
pub const WIDTH: usize = 64;

// How many rows are in the set.
pub fn size(set: u64) -> usize
    ensures value { result ≡ below set width }
    ensures upper_bound { result ≤ width }
{
    set.count_ones() as usize
}

// How many rows of the set stand below a row. The remainder by the row's bit keeps those rows and no other.
pub fn below_row(set: u64, row: usize) -> usize
    ensures value { result ≡ below set row }
    ensures upper_bound { result ≤ width }
{
    if WIDTH <= row {
        return size(set);
    }
    size(set % (1 << row))
}

// The first row of the set at a place or after it.
pub fn next_from(set: u64, from: usize) -> Option<usize>
    ensures { result ≡ next_in (width - from) set from }
{
    if WIDTH <= from {
        return None;
    }
    let rest = set >> from;
    if rest == 0 {
        return None;
    }
    let row = from + rest.trailing_zeros() as usize;
    Some(row)
}
