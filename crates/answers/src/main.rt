// The program: reads a sheet from standard input and answers the question that its arguments ask, with the number that they ask it with.
#![tactic(auto)]

mod lending;

ghost use Rattle.std.specs.Prelude.{◌≤◌, length};

use fields::values::Sheet;
use lending::{needs_many, tell_in};
use printing::read_full;
use std::env::FillError;
use std::io;
use std::rt::Env;
use words::{DIGITS, LETTERS, Question, number_of, question_of};

// The longest sheet that is read.
const LONGEST: usize = 65536;

// The cells to work in: few, for which an ordinary stack is enough, or as many as 64 rows take up to the longest horizon, twice what a sheet has today.
const FEW: usize = 1000000;

const MANY: usize = 4194304;

// A witness has at most a row for each tick.
const AREA: usize = 65535;

fn main(rt: HostRuntime) -> io::Result<()> {
    let mut word = [0u8; LETTERS];
    let size = word_at(&rt, 1, &mut word);
    match question_of(&word[..size]) {
        Some(question) => ask(&rt, question),
        None => rt.println("usage: answers QUESTION [NUMBER]"),
    }
}

// Puts an argument at the start of the word, and says how long it is. One that is missing, or longer than the word, is handed over as an
// empty one.
fn word_at(rt: &impl Env, place: usize, word: &mut [u8]) -> usize
    ensures { result ≤ length word.new }
{
    rt.arg(place, word).unwrap_or(0)
}

fn has_word(rt: &impl Env, place: usize) -> bool {
    !matches!(rt.arg(place, &mut []), Err(FillError::NotPresent))
}

fn ask(rt: &(impl Env + Input + Print), question: Question) -> io::Result<()> {
    match number_asked(rt, question) {
        Some(number) => {
            let mut buffer = [0u8; LONGEST + 1];
            read_sheet(rt, question, number, &mut buffer)
        }
        None => print_usage(rt, question),
    }
}

// The number behind the question. Where there is none, a horizon is the longest; an interval or an amount has to be named.
fn number_asked(rt: &impl Env, question: Question) -> Option<u64> {
    if has_word(rt, 3) {
        return None;
    }
    if !has_word(rt, 2) {
        return without_number(question);
    }
    let mut word = [0u8; DIGITS];
    let size = word_at(rt, 2, &mut word);
    number_of(&word[..size])
}

fn without_number(question: Question) -> Option<u64> {
    match question {
        Question::Fits | Question::Curve | Question::Chart => Some(Sheet::TICKS.0 as u64),
        Question::At | Question::Shortest => None,
    }
}

fn print_usage(rt: &impl Print, question: Question) -> io::Result<()> {
    match question {
        Question::Fits => rt.println("usage: fits [HORIZON]"),
        Question::Curve => rt.println("usage: curve [HORIZON]"),
        Question::Chart => rt.println("usage: chart [HORIZON]"),
        Question::At => rt.println("usage: at INTERVAL"),
        Question::Shortest => rt.println("usage: shortest AMOUNT"),
    }
}

fn read_sheet(
    rt: &(impl Input + Print),
    question: Question,
    number: u64,
    buffer: &mut [u8],
) -> io::Result<()> {
    let size = read_full(&mut rt.reader(), buffer)?;
    if LONGEST < size {
        return rt.println("too long");
    }
    answer(rt, &buffer[..size], question, number, false)
}

// Answers in few cells, or in many where few are not enough. That it calls itself keeps the few and the many in frames of their own: the
// compiler takes no large array into a function that does.
fn answer(
    rt: &impl Print,
    bytes: &[u8],
    question: Question,
    number: u64,
    many: bool,
) -> io::Result<()> {
    let mut area = [0u8; AREA];
    if many {
        return tell_in::<MANY>(rt, bytes, question, number, &mut area);
    }
    if needs_many(bytes, question, number) {
        return answer(rt, bytes, question, number, true);
    }
    tell_in::<FEW>(rt, bytes, question, number, &mut area)
}
