// What stands at a place of the file: a number, or a field, or the refusal of one.
ghost use Rattle.std.specs.Prelude.{◌≡◌, ◌+◌, ◌<◌, ltb, get_or, length};
ghost use Rattle.fields.specs.Reading.{word_at, long_at, field_at};

use crate::refusal::{Reason, Refusal};
use crate::table::Kind;

// A field's kind, where its content starts, how many bytes it has and where the next field starts.
#[derive(Clone, Copy, Debug, PartialEq, Eq)]
pub struct Field {
    pub kind: Kind,
    pub start: usize,
    pub size: usize,
    pub next: usize,
}

// The field that starts at a place. It tries rule 1 and rule 2 alone.
pub fn field_at(bytes: &[u8], at: usize) -> Result<Field, Refusal>
    ensures { result ≡ field_at bytes.now at }
{
    let all = bytes.len();
    if too_short(all, at, 3) {
        return Err(Refusal {
            reason: Reason::CutOff,
            place: at,
        });
    }
    let kind = Kind::from(bytes[at]);
    if kind == Kind::RefusedTag {
        return Err(Refusal {
            reason: Reason::UnknownTag,
            place: at,
        });
    }
    let size = usize::from(word_at(bytes, at + 1));
    let start = at + 3;
    if too_short(all, start, size) {
        return Err(Refusal {
            reason: Reason::CutOff,
            place: at,
        });
    }
    Ok(Field {
        kind,
        start,
        size,
        next: start + size,
    })
}

// Whether a file of `all` bytes has fewer than `more` from a place on.
pub(crate) fn too_short(all: usize, at: usize, more: usize) -> bool
    ensures { result ≡ ltb all (at + more) }
{
    all < more || all - more < at
}

// The byte at a place, 0 past the end.
pub(crate) fn byte_at(bytes: &[u8], at: usize) -> u8
    ensures { result ≡ get_or bytes.now at 0 }
{
    bytes.get(at).copied().unwrap_or(0)
}

// The two bytes at a place as a number, high byte first, with zeros past the end.
pub fn word_at(bytes: &[u8], at: usize) -> u16
    ensures { result ≡ word_at bytes.now at }
{
    if bytes.len() <= at {
        return 0;
    }
    u16::from_be_bytes([byte_at(bytes, at), byte_at(bytes, at + 1)])
}

// The two bytes at a place that is known to be inside the file, which takes no test: the tables read rows and gaps in their loops, where
// `word_at` would test at each turn what their callers have made sure of.
pub fn word_inside(bytes: &[u8], at: usize) -> u16
    requires { at + 1 < length bytes.now }
    ensures { result ≡ word_at bytes.now at }
{
    u16::from_be_bytes([bytes[at], bytes[at + 1]])
}

// The four bytes at a place as a number, with zeros past the end.
pub fn long_at(bytes: &[u8], at: usize) -> u64
    ensures { result ≡ long_at bytes.now at }
{
    let high = u64::from(word_at(bytes, at));
    if too_short(bytes.len(), at, 3) {
        return high * 65536;
    }
    high * 65536 + u64::from(word_at(bytes, at + 2))
}
