// Real time and clock readings, kept apart: a moment and a reading are two types. A span of real time, as the
// delivery bound, is added to a moment alone; a period, a step or an increment to a reading alone; and the one
// difference of readings is signed, so that it fits neither. Both count whole microseconds.
#![tactic(auto)]

ghost use Rattle.std.specs.Prelude.{◌≡◌, nat_abs};
ghost use Rattle.clock.specs.Time.{later, mark, lead_of};
ghost use Rattle.clock.specs.Tests as test;
ghost use Rattle.clock.specs.Drift.{in_drift};

// The limits of document 01.
pub const MAX_STATIONS: u64 = 12;

pub const MAX_DRIFT: u64 = 100;

pub const MAX_BOUND: u64 = 1_000_000;

pub const MAX_SPREAD: u64 = 1_000_000;

pub const MAX_STEP: u64 = 10_000_000;

pub const MAX_PERIOD: u64 = 100_000_000;

pub const MAX_ROUND: u64 = 1_000_000;

pub const MAX_TIME: u64 = 100_000_000_000_000;

pub const MAX_READING: u64 = 300_000_000_000_000;

pub const MAX_FLIGHT: u64 = 1_024;

pub const MAX_ADVANCE: u64 = 100_000_000;

pub const MAX_INCREMENT: u64 = 200_000_000;

pub const MAX_SCRIPT: u64 = 65_536;

// The parts in which drift is counted: document 01's M.
pub const PARTS: u64 = 10_000;

// The largest number that a word holds.
pub const LAST: u64 = u64::MAX;

// A moment of real time: microseconds since the run began.
#[derive(Clone, Copy, Default, PartialEq)]
pub struct Moment(pub u64);

// What a station's clock shows.
#[derive(Clone, Copy, Default, PartialEq)]
pub struct Reading(pub u64);

impl Moment {
    // The moment `span` later; the last that a word holds, where that is past it.
    pub fn after(self, span: u64) -> Self
        ensures { result.0 ≡ later self.0 span }
    {
        Moment(self.0.saturating_add(span))
    }
}

impl Reading {
    // The reading of a clock that has gone on by `by`; the last that a word holds, where that is past it.
    pub fn on(self, by: u64) -> Self
        ensures { result.0 ≡ later self.0 by }
    {
        Reading(self.0.saturating_add(by))
    }

    // The mark of a round: round times period. Past the limits it is where no clock comes.
    #[tactic(auto, unfolding(crate::specs::Time::mark))]
    pub fn mark(round: u64, period: u64) -> Self
        ensures { result.0 ≡ mark round period }
    {
        if round > MAX_ROUND + 1 || period > MAX_PERIOD {
            return Reading(LAST);
        }
        Reading(round * period)
    }

    // The lead over another clock: its reading less the other's, below zero where it is behind. A reading over the
    // limit leads nothing.
    #[tactic(auto, unfolding(crate::specs::Time::lead_of))]
    pub fn lead(self, other: Reading) -> i64
        ensures { result ≡ lead_of self.0 other.0 }
    {
        let a = self.0;
        let b = other.0;
        if a > MAX_READING {
            return 0;
        }
        if b > MAX_READING {
            return 0;
        }
        (a as i64) - (b as i64)
    }
}

// Whether x is not from low to high.
pub fn outside(low: u64, high: u64, x: u64) -> bool
    ensures { result ≡ test.outside low high x }
{
    (x < low) | (high < x)
}

// Whether an increment over a span keeps the drift rule: with S = M + drift, M times span is at most S times
// increment, and M times increment at most S times span. Past the limits none does.
#[tactic(auto, unfolding(crate::specs::Drift::in_drift, crate::specs::Drift::keeps))]
pub fn in_drift(drift: u64, span: u64, increment: u64) -> bool
    ensures { result ≡ in_drift drift span increment }
{
    if drift > MAX_DRIFT {
        return false;
    }
    if span > MAX_ADVANCE {
        return false;
    }
    if increment > MAX_INCREMENT {
        return false;
    }
    let s = PARTS + drift;
    (PARTS * span <= s * increment) & (PARTS * increment <= s * span)
}

// How far a lead is from 0: a number without its sign.
pub fn magnitude(x: i64) -> u64
    ensures { result ≡ nat_abs x }
{
    x.unsigned_abs()
}
