// Rule 7 of a label's bytes.
ghost use Rattle.std.specs.Prelude.{◌≡◌, ◌+◌, ◌≤◌, length};
ghost use Rattle.fields.specs.Deciding.{first_broken};
ghost use Rattle.rules.specs.Rules.{bad_text, text_rules};

use crate::bad_byte;
use fields::refusal::Reason;

// The rule of a label's bytes, of which there are `size` from `start` on.
pub fn judge_text(bytes: &[u8], start: usize, size: usize) -> Result<(), Reason>
    requires { start + size ≤ length bytes.now }
    ensures { result ≡ first_broken (text_rules bytes.now start size) }
{
    if bad_text(bytes, start, size) {
        return Err(Reason::BadValue);
    }
    Ok(())
}

// A byte that rule 7 does not allow.
fn bad_text(bytes: &[u8], start: usize, size: usize) -> bool
    requires { start + size ≤ length bytes.now }
    ensures { result ≡ bad_text bytes.now start size }
{
    bytes[start..start + size]
        .iter()
        .any(|byte| bad_byte(*byte))
}
