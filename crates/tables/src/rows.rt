// The rows of an accepted sheet as the tables take them.
ghost use Rattle.std.specs.Prelude.{◌≡◌, ◌<◌, get_or};
ghost use Rattle.fields.specs.Reading.{row_at};
ghost use Rattle.sheet.specs.Outline.{Handed};
ghost use Rattle.tables.specs.Laid.{Laid};

use crate::interval::job_lengths;
use fields::values::{Row, Sheet};
use sheet::Head;
use sheet::rows::row_at;

// The file, where each row stands in it, each row's job length, which is calculated once for all that is asked of a sheet, and how many rows there are. There is no heap, so the arrays have the limit's length.
#[derive(Clone, Copy)]
pub struct Rows<'a> {
    pub bytes: &'a [u8],
    pub places: &'a [usize; Sheet::ROWS],
    pub lengths: [u32; Sheet::ROWS],
    pub count: usize,
    pub ghost laid: { Laid bytes.now places.now lengths count },
}

impl<'a> Rows<'a> {
    pub fn new(bytes: &'a [u8], head: Head, places: &'a [usize; Sheet::ROWS]) -> Rows<'a>
        requires { Handed bytes.now head places.now }
        ensures bytes { result.bytes.now ≡ bytes.now }
        ensures count { result.count ≡ head.tally.rows }
    {
        let lengths = job_lengths(bytes, head, places);
        Rows {
            bytes,
            places,
            lengths,
            count: head.tally.rows,
        }
    }

    // The row of a number, as it stands in the file.
    pub fn row(&self, number: usize) -> Row
        requires { number < self.now.count }
        ensures { result ≡ row_at self.now.bytes.now (get_or self.now.places.now number 0) }
    {
        row_at(self.bytes, self.places[number])
    }
}
