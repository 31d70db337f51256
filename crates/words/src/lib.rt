// What a program's words say: which question is asked, and which number a word is.
#![tactic(auto)]

ghost use Rattle.std.specs.Prelude.{◌≡◌};
ghost use Rattle.words.specs.Numbers.{Says};
ghost use Rattle.words.specs.Questions.{Names};

// The questions that a sheet can be asked from the command line.
#[derive(Clone, Copy, Debug, PartialEq, Eq)]
pub enum Question {
    Fits,
    Curve,
    Chart,
    At,
    Shortest,
}

// The letters of the longest name.
pub const LETTERS: usize = 8;

// The most digits of a number.
pub const DIGITS: usize = 5;

// The question that a word is the name of, tried name by name.
pub fn question_of(word: &[u8]) -> Option<Question>
    ensures { Names word.now result }
{
    match word {
        b"fits" => Some(Question::Fits),
        b"curve" => Some(Question::Curve),
        b"chart" => Some(Question::Chart),
        b"at" => Some(Question::At),
        b"shortest" => Some(Question::Shortest),
        _ => None,
    }
}

// The number that a word is, digit by digit: 1 to 5 of them, the first no 0 unless it is the only one.
pub fn number_of(word: &[u8]) -> Option<u64>
    ensures { Says word.now result }
{
    let size = word.len();
    if size == 0 || DIGITS < size {
        return None;
    }
    if word[0] == b'0' && 1 < size {
        return None;
    }
    let mut value: u64 = 0;
    for byte in word {
        if !byte.is_ascii_digit() {
            return None;
        }
        value = value * 10 + (*byte - b'0') as u64;
    }
    Some(value)
}
