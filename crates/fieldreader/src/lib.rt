// The field reader as a value: the bytes that it was made of, and how far it has come in them.
#![tactic(auto)]

ghost use Rattle.std.specs.Prelude.{◌≡◌};
ghost use Rattle.fields.specs.Reading.{field_at};
ghost use Rattle.fieldreader.specs.Moving.{stepped};

use fields::reader::{Field, field_at};
use fields::refusal::Refusal;

#[derive(Clone, Copy)]
pub struct Reader<'a> {
    pub bytes: &'a [u8],
    pub at: usize,
}

impl<'a> Reader<'a> {
    // A reader at the start of the bytes.
    pub fn new(bytes: &'a [u8]) -> Reader<'a>
        ensures { (result.bytes ≡ bytes.entry) × (result.at ≡ 0) }
    {
        Reader { bytes, at: 0 }
    }

    // The field or the refusal at its place. On a field the reader moves to the next one; else it stays.
    pub fn step(&mut self) -> Result<Field, Refusal>
        ensures { (result ≡ field_at self.old.bytes.now self.old.at) × (self.new ≡ stepped self.old) }
    {
        let field = field_at(self.bytes, self.at)?;
        self.at = field.next;
        Ok(field)
    }
}
