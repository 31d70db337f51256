// The structs that C is given, and each answer of the library as one of them.
#![tactic(auto)]

ghost use Rattle.std.specs.Prelude.{◌≡◌};
ghost use Rattle.numbers.specs.Flat.{flat_outline, flat_heading, flat_step, flat_demand, flat_margin, flat_shortest, flat_verdict};

use desk::Attained;
use fields::reader::Field;
use fields::refusal::Refusal;
use sheet::Head;

// C has no `Result`. In each of them but that of a label `number` is 0, or the refusal's number with its place, and then all else is 0.
#[repr(C)]
#[derive(Clone, Copy)]
pub struct JudgeForC {
    pub number: u8,
    pub place: usize,
    pub modes: usize,
    pub rows: usize,
    pub tasks: usize,
}

#[repr(C)]
#[derive(Clone, Copy)]
pub struct LabelForC {
    pub start: usize,
    pub size: usize,
}

#[repr(C)]
#[derive(Clone, Copy)]
pub struct FieldForC {
    pub number: u8,
    pub place: usize,
    pub kind: u8,
    pub start: usize,
    pub size: usize,
    pub next: usize,
}

#[repr(C)]
#[derive(Clone, Copy)]
pub struct DemandForC {
    pub number: u8,
    pub place: usize,
    pub amount: u32,
    pub count: usize,
}

#[repr(C)]
#[derive(Clone, Copy)]
pub struct MarginForC {
    pub number: u8,
    pub place: usize,
    pub margin: i64,
}

#[repr(C)]
#[derive(Clone, Copy)]
pub struct ShortestForC {
    pub number: u8,
    pub place: usize,
    pub time: u32,
}

#[repr(C)]
#[derive(Clone, Copy)]
pub struct VerdictForC {
    pub number: u8,
    pub place: usize,
    pub overrun: u64,
}

impl From<Result<Head, Refusal>> for JudgeForC {
    ghost from_gives = { λ answer numbers. numbers ≡ flat_outline answer };

    fn from(answer: Result<Head, Refusal>) -> JudgeForC {
        match answer {
            Ok(Head { tally, .. }) => JudgeForC {
                number: 0,
                place: 0,
                modes: tally.modes,
                rows: tally.rows,
                tasks: tally.tasks,
            },
            Err(refusal) => JudgeForC {
                number: refusal.number(),
                place: refusal.place,
                modes: 0,
                rows: 0,
                tasks: 0,
            },
        }
    }
}

impl From<Result<Head, Refusal>> for LabelForC {
    ghost from_gives = { λ answer numbers. numbers ≡ flat_heading answer };

    fn from(answer: Result<Head, Refusal>) -> LabelForC {
        match answer {
            Ok(Head { label, .. }) => LabelForC {
                start: label.start,
                size: label.size,
            },
            Err(_) => LabelForC { start: 0, size: 0 },
        }
    }
}

impl From<Result<Field, Refusal>> for FieldForC {
    ghost from_gives = { λ answer numbers. numbers ≡ flat_step answer };

    fn from(answer: Result<Field, Refusal>) -> FieldForC {
        match answer {
            Ok(field) => FieldForC {
                number: 0,
                place: 0,
                kind: u8::from(field.kind),
                start: field.start,
                size: field.size,
                next: field.next,
            },
            Err(refusal) => FieldForC {
                number: refusal.number(),
                place: refusal.place,
                kind: 0,
                start: 0,
                size: 0,
                next: 0,
            },
        }
    }
}

impl From<Result<Attained, Refusal>> for DemandForC {
    ghost from_gives = { λ answer numbers. numbers ≡ flat_demand answer };

    fn from(answer: Result<Attained, Refusal>) -> DemandForC {
        match answer {
            Ok(Attained { amount, count }) => DemandForC {
                number: 0,
                place: 0,
                amount,
                count,
            },
            Err(refusal) => DemandForC {
                number: refusal.number(),
                place: refusal.place,
                amount: 0,
                count: 0,
            },
        }
    }
}

impl From<Result<i64, Refusal>> for MarginForC {
    ghost from_gives = { λ answer numbers. numbers ≡ flat_margin answer };

    fn from(answer: Result<i64, Refusal>) -> MarginForC {
        match answer {
            Ok(margin) => MarginForC {
                number: 0,
                place: 0,
                margin,
            },
            Err(refusal) => MarginForC {
                number: refusal.number(),
                place: refusal.place,
                margin: 0,
            },
        }
    }
}

impl From<Result<u32, Refusal>> for ShortestForC {
    ghost from_gives = { λ answer numbers. numbers ≡ flat_shortest answer };

    fn from(answer: Result<u32, Refusal>) -> ShortestForC {
        match answer {
            Ok(time) => ShortestForC {
                number: 0,
                place: 0,
                time,
            },
            Err(refusal) => ShortestForC {
                number: refusal.number(),
                place: refusal.place,
                time: 0,
            },
        }
    }
}

impl From<Result<Option<u64>, Refusal>> for VerdictForC {
    ghost from_gives = { λ answer numbers. numbers ≡ flat_verdict answer };

    fn from(answer: Result<Option<u64>, Refusal>) -> VerdictForC {
        match answer {
            Ok(overrun) => VerdictForC {
                number: 0,
                place: 0,
                overrun: overrun.unwrap_or(0),
            },
            Err(refusal) => VerdictForC {
                number: refusal.number(),
                place: refusal.place,
                overrun: 0,
            },
        }
    }
}
