// The pieces of a field: its head, a text, and numbers, high byte first.
ghost use Rattle.std.specs.Prelude.{◌≡◌, [], ◌∷◌, ◌+◌, ◌*◌, ◌/◌, ◌%◌, ◌≤◌, ◌<◌, length};
ghost use Rattle.fields.specs.Fields.{tag_of};
ghost use Rattle.written.specs.Written.{words, field};
ghost use Rattle.putting.specs.Putting.{Put};

use fields::table::Kind;

// One number.
#[tactic(auto, unfolding(written::specs::Written::words))]
pub(crate) fn put_number(out: &mut [u8], number: u16)
    requires { 2 ≤ length out.old }
    ensures { Put (words (number ∷ [])) out.old out.new }
{
    out[..2].copy_from_slice(&number.to_be_bytes());
}

// Numbers, one behind the other.
#[tactic(auto, unfolding(written::specs::Written::words))]
pub(crate) fn put_numbers(out: &mut [u8], numbers: &[u16])
    requires { 2 * length numbers.now ≤ length out.old }
    ensures { Put (words numbers.now) out.old out.new }
{
    for (at, number) in numbers.iter().enumerate() {
        put_number(&mut out[2 * at..], *number);
    }
}

// A text, byte by byte: `copy_from_slice` becomes a call of `memmove`, and of C's library the archive asks for `memcpy` alone.
pub(crate) fn put_text(out: &mut [u8], text: &[u8])
    requires { length text.now ≤ length out.old }
    ensures { Put text.now out.old out.new }
{
    for (at, byte) in text.iter().enumerate() {
        out[at] = *byte;
    }
}

// A field's tag and length.
#[tactic(auto, unfolding(written::specs::Written::words))]
pub(crate) fn put_head(out: &mut [u8], kind: Kind, size: usize)
    requires room { 3 ≤ length out.old }
    requires small { size < 65536 }
    ensures { Put (tag_of kind ∷ size / 256 ∷ size % 256 ∷ []) out.old out.new }
{
    out[0] = u8::from(kind);
    put_number(&mut out[1..], size as u16);
}

// A field whose content is numbers, and how many bytes it has.
#[tactic(auto, using(written::proofs::EntryFields::words_length))]
pub(crate) fn put_field(out: &mut [u8], kind: Kind, numbers: &[u16]) -> usize
    requires room { 3 + 2 * length numbers.now ≤ length out.old }
    requires small { 2 * length numbers.now < 65536 }
    ensures size { result ≡ length (field (tag_of kind) (words numbers.now)) }
    ensures put { Put (field (tag_of kind) (words numbers.now)) out.old out.new }
{
    put_head(out, kind, 2 * numbers.len());
    put_numbers(&mut out[3..], numbers);
    3 + 2 * numbers.len()
}
