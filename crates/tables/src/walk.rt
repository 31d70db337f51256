// A walk over the followers of a row.
ghost use Rattle.std.specs.Prelude.{◌≡◌, ◌≢◌, MatchOption};
ghost use Rattle.sheet.specs.Proper.{ProperRow};
ghost use Rattle.tables.specs.Followers.{Followed};

use crate::interval::gap_at;
use fields::units::Ticks;
use fields::values::{Row, Sheet};

// What is left of a set of followers among `count` rows, and the place in the file where the gap to the lowest of them stands.
#[derive(Clone, Copy)]
pub struct Followers<'a> {
    pub bytes: &'a [u8],
    pub count: usize,
    pub rest: u64,
    pub place: usize,
    pub ghost followed: { Followed bytes.now count rest place },
}

impl<'a> Followers<'a> {
    ghost use Rattle.tables.specs.Walk.{IsLowest, IsPast, Taken};

    // All followers of a row among `count`.
    #[inline]
    pub fn new(bytes: &'a [u8], count: usize, row: Row) -> Followers<'a>
        requires { ProperRow bytes.now count row }
        ensures bytes { result.bytes.now ≡ bytes.now }
        ensures count { result.count ≡ count }
        ensures rest { result.rest ≡ row.followers }
        ensures place { result.place ≡ row.gaps }
    {
        Followers {
            bytes,
            count,
            rest: row.followers,
            place: row.gaps,
        }
    }

    // The lowest follower that is left, and the gap to it.
    #[inline]
    pub fn lowest(&self) -> Option<(usize, Ticks)>
        ensures { MatchOption result (self.now.rest ≡ 0) (λ one. IsLowest self.now one.0 one.1) }
    {
        if self.rest == 0 {
            return None;
        }
        let row = u64::trailing_zeros(self.rest) as usize;
        Some((row, gap_at(self.bytes, self.place)))
    }

    // Goes past the lowest. Its bit is cleared, and the gap of the next one stands two bytes on.
    #[inline]
    pub fn pass(&mut self)
        requires { self.old.rest ≢ 0 }
        ensures { IsPast self.old self.new }
    {
        self.rest = self.rest & (self.rest - 1);
        self.place += Sheet::GAP;
    }

    // The lowest follower that is left, and the gap to it, with the walk gone past it.
    #[inline]
    pub fn next(&mut self) -> Option<(usize, Ticks)>
        ensures { MatchOption result (self.old.rest ≡ 0) (λ one. Taken self.old self.new one.0 one.1) }
    {
        let Some(lowest) = self.lowest() else {
            return None;
        };
        self.pass();
        Some(lowest)
    }
}
