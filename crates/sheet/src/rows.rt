// Rows as they stand in the file: one at a place, and those at the places that the judge keeps.
ghost use Rattle.std.specs.Prelude.{◌≡◌, ◌+◌, ◌≤◌, List, length};
ghost use Rattle.fields.specs.Limits.{head_size};
ghost use Rattle.fields.specs.Reading.{row_at};
ghost use Rattle.rules.specs.Rules.{unknown_follower};
ghost use Rattle.sheet.specs.Outline.{PlacesIn, RowsFrom};

use fields::reader::word_inside;
use fields::units::{Rpm, Ticks};
use fields::values::{Row, Sheet};
use rules::unknown_in;

// The rows at the first `count` places, and rows of zeros past them.
pub(crate) fn rows_at(
    bytes: &[u8],
    places: &[usize; Sheet::ROWS],
    count: usize,
) -> [Row; Sheet::ROWS]
    requires { PlacesIn bytes.now places.now count }
    ensures { RowsFrom bytes.now places.now count result }
{
    let mut rows = [Row::NONE; Sheet::ROWS];
    for number in 0..count {
        rows[number] = row_at(bytes, places[number]);
    }
    rows
}

// Rule 9: one of the rows at the first `count` places names a row that does not exist.
pub(crate) fn unknown_follower(bytes: &[u8], places: &[usize; Sheet::ROWS], count: usize) -> bool
    requires { PlacesIn bytes.now places.now count }
    ensures { (rows : List Row) → RowsFrom bytes.now places.now count rows → result ≡ unknown_follower rows count }
{
    (0..count).any(|number| unknown_in(row_at(bytes, places[number]).followers, count))
}

// The row at a place that is known to be inside the file. The tables read it in their loops, so it takes no test.
pub fn row_at(bytes: &[u8], place: usize) -> Row
    requires { place + head_size ≤ length bytes.now }
    ensures { result ≡ row_at bytes.now place }
{
    let set = place + 4;
    let high = word_inside(bytes, set) as u64;
    let low = word_inside(bytes, set + 2) as u64;
    Row {
        speed: Rpm(word_inside(bytes, place)),
        deadline: Ticks(word_inside(bytes, place + 2)),
        followers: high * 65536 + low,
        gaps: place + Sheet::HEAD,
    }
}
