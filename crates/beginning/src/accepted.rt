// The accepted sheet that a call has in hand once it has begun.
ghost use Rattle.std.specs.Prelude.{◌≡◌};
ghost use Rattle.sheet.specs.Outline.{Handed};

use fields::values::Sheet;
use sheet::Head;
use tables::rows::Rows;

// The file, all of its sheet but the rows, and where each row stands in the file.
#[derive(Clone, Copy)]
pub struct AcceptedSheet<'a> {
    pub bytes: &'a [u8],
    pub head: Head,
    pub places: &'a [usize; Sheet::ROWS],
    pub ghost handed: { Handed bytes.now head places.now },
}

impl<'a> AcceptedSheet<'a> {
    // Its rows as the tables take them.
    pub fn rows(&self) -> Rows<'a>
        ensures bytes { result.bytes.now ≡ self.now.bytes.now }
        ensures count { result.count ≡ self.now.head.tally.rows }
    {
        Rows::new(self.bytes, self.head, self.places)
    }
}
