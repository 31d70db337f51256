// The struct that C is given for an explanation, and an answer of `explain` as one.
#![tactic(auto)]

ghost use Rattle.std.specs.Prelude.{◌≡◌};
ghost use Rattle.explain_numbers.specs.Flat.{cause_number, flat_explained};

use explain::{Cause, Explained};
use fields::refusal::Refusal;
use fields::values::Sheet;

// `number` is 0, or the refusal's number with its place, and then all else is 0. From `overrun` to `count` all is 0 where nothing is overrun, and `margin` and `interval` are 0 where something is.
#[repr(C)]
#[derive(Clone, Copy)]
pub struct ExplainForC {
    pub number: u8,
    pub place: usize,
    pub overrun: u64,
    pub cause: u8,
    pub engine: u32,
    pub demands: [u64; Sheet::TASKS],
    pub excess: u64,
    pub count: usize,
    pub margin: u64,
    pub interval: u64,
}

impl ExplainForC {
    // A verdict that holds, with no interval to tell of.
    const NONE: ExplainForC = ExplainForC {
        number: 0,
        place: 0,
        overrun: 0,
        cause: 0,
        engine: 0,
        demands: [0; Sheet::TASKS],
        excess: 0,
        count: 0,
        margin: 0,
        interval: 0,
    };
}

impl From<Result<Explained, Refusal>> for ExplainForC {
    ghost from_gives = { λ answer numbers. numbers ≡ flat_explained answer };

    fn from(answer: Result<Explained, Refusal>) -> ExplainForC {
        match answer {
            Ok(Explained::Holds { margin, interval }) => ExplainForC {
                margin,
                interval,
                ..ExplainForC::NONE
            },
            Ok(Explained::NoInterval) => ExplainForC::NONE,
            Ok(Explained::Fails(first)) => {
                // An array is laid into a struct by a name of its own; the borrow checker asks for that.
                let demands = first.demands;
                ExplainForC {
                    overrun: first.interval,
                    cause: cause_number(first.cause),
                    engine: first.engine,
                    demands,
                    excess: first.excess,
                    count: first.count,
                    ..ExplainForC::NONE
                }
            }
            Err(refusal) => ExplainForC {
                number: refusal.number(),
                place: refusal.place,
                ..ExplainForC::NONE
            },
        }
    }
}

// The numbers of causes are C's alone, so they stand here and not at `Cause`.
fn cause_number(cause: Cause) -> u8
    ensures { result ≡ cause_number cause }
{
    match cause {
        Cause::Engine => 1,
        Cause::Fixed => 2,
        Cause::Together => 3,
    }
}
