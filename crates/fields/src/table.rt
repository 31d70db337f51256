// The field table, and what kind of field a tag says.
ghost use Rattle.std.specs.Prelude.{◌≡◌};
ghost use Rattle.fields.specs.Fields.{kind_of, tag_of, line_of};

use crate::values::Sheet;

// A line of the field table: shortest and longest content in bytes, how many such fields a sheet may have, whether one is required, and
// whether the content is numbers of two bytes each.
#[derive(Clone, Copy)]
pub struct Line {
    pub shortest: usize,
    pub longest: usize,
    pub most: usize,
    pub required: bool,
    pub numbers: bool,
}

#[derive(Clone, Copy, Debug, PartialEq, Eq)]
pub enum Kind {
    // What rule 2 refuses is a kind too, since `kind_of` in specs/ has a kind for every tag.
    RefusedTag,
    LabelField,
    ModeField,
    RowField,
    TaskField,
    EndField,
    SkippedField,
}

impl Line {
    // A line that allows nothing.
    const NONE: Line = Line {
        shortest: 0,
        longest: 0,
        most: 0,
        required: false,
        numbers: false,
    };
}

// How many kinds of field are known; their tags are the numbers from 1 on.
const KINDS: usize = 5;

// One line for each known kind: label, mode, row, fixed task, end.
const FIELDS: [Line; KINDS] = [
    Line {
        shortest: 1,
        longest: Sheet::LABEL,
        most: 1,
        required: true,
        numbers: false,
    },
    Line {
        shortest: Sheet::MODE,
        longest: Sheet::MODE + Sheet::FALLBACK,
        most: Sheet::MODES,
        required: true,
        numbers: true,
    },
    Line {
        shortest: Sheet::HEAD,
        longest: Sheet::HEAD + Sheet::GAP * Sheet::ROWS,
        most: Sheet::ROWS,
        required: true,
        numbers: true,
    },
    Line {
        shortest: Sheet::TASK,
        longest: Sheet::TASK + Sheet::JITTER,
        most: Sheet::TASKS,
        required: false,
        numbers: true,
    },
    Line {
        shortest: 0,
        longest: 0,
        most: 1,
        required: true,
        numbers: false,
    },
];

// The line of a tag; for a tag that has none, a line that allows nothing.
pub fn line_of(tag: usize) -> Line
    ensures { result ≡ line_of tag }
{
    match tag {
        1..=KINDS => FIELDS[tag - 1],
        _ => Line::NONE,
    }
}

// The kind of field that a tag byte begins; rule 2 refuses what begins none.
impl From<u8> for Kind {
    ghost from_gives = { λ tag kind. kind ≡ kind_of tag };

    fn from(tag: u8) -> Kind {
        match tag {
            1 => Kind::LabelField,
            2 => Kind::ModeField,
            3 => Kind::RowField,
            4 => Kind::TaskField,
            5 => Kind::EndField,
            0 | 6..=127 => Kind::RefusedTag,
            128..=255 => Kind::SkippedField,
        }
    }
}

// A known kind has its tag, a skipped one the first tag that is skipped, and the refused one 0, the first tag that rule 2 refuses.
impl From<Kind> for u8 {
    ghost from_gives = { λ kind tag. tag ≡ tag_of kind };

    fn from(kind: Kind) -> u8 {
        match kind {
            Kind::RefusedTag => 0,
            Kind::LabelField => 1,
            Kind::ModeField => 2,
            Kind::RowField => 3,
            Kind::TaskField => 4,
            Kind::EndField => 5,
            Kind::SkippedField => 128,
        }
    }
}
