// Which cells a question is lent, few where they are enough and else many, and what answers it.
ghost use Rattle.std.specs.Prelude.{◌≡◌, false, ◌+◌, ◌≤◌, length};
ghost use Rattle.meaning.specs.Demand.{longest_time};
ghost use Rattle.answers.specs.Room.{few_cells, lines_for, HasRoom};

use crate::{AREA, FEW, MANY};
use fields::values::Sheet;
use std::io;
use telling::{rows_of, tell_at, tell_curve, tell_shortest};
use telling_why::tell_why;
use words::Question;

// Whether few cells are too few. A number that is out of range takes none.
pub(crate) fn needs_many(bytes: &[u8], question: Question, number: u64) -> bool
    ensures { result ≡ false → HasRoom bytes.now question number few_cells }
{
    if (Sheet::TICKS.0 as u64) + 1 < number {
        return false;
    }
    FEW < rows_of(bytes) * lines_for(question, number)
}

fn lines_for(question: Question, number: u64) -> usize
    requires { number ≤ longest_time + 1 }
    ensures { result ≡ lines_for question number }
{
    let lines = number as usize;
    match question {
        Question::Fits | Question::Curve | Question::Chart | Question::At => lines + 1,
        Question::Shortest => lines,
    }
}

// The answer, in so many cells, which are enough for it.
pub(crate) fn tell_in<const CELLS: usize>(
    rt: &impl Print,
    bytes: &[u8],
    question: Question,
    number: u64,
    area: &mut [u8; AREA],
) -> io::Result<()>
    requires room { HasRoom bytes.now question number CELLS }
    requires at_most_many { CELLS ≤ MANY }
{
    let mut cells = [0u32; CELLS];
    tell(rt, bytes, question, number, &mut cells, area)
}

// The answer to a question that is asked with a number. A witness has at most a row for each tick.
fn tell(
    rt: &impl Print,
    bytes: &[u8],
    question: Question,
    number: u64,
    cells: &mut [u32],
    area: &mut [u8],
) -> io::Result<()>
    requires room { HasRoom bytes.now question number (length cells.old) }
    requires area_room { longest_time ≤ length area.old }
{
    match question {
        Question::Fits => tell_why(rt, bytes, number, cells, area),
        Question::Curve => tell_curve(rt, bytes, number, cells, false),
        Question::Chart => tell_curve(rt, bytes, number, cells, true),
        Question::At => tell_at(rt, bytes, number, cells, area),
        Question::Shortest => tell_shortest(rt, bytes, number, cells),
    }
}
