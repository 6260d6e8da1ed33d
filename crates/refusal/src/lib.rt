// The numbers that a caller gets back, document 01's, each with a name; 0 is what is accepted.
#![tactic(auto)]

ghost use Rattle.std.specs.Prelude.{◌≡◌, Some};
ghost use Rattle.std.specs.Fmt.{decimal};
ghost use Rattle.refusal.specs.Refusal as given;

use std::error::Error;
use std::fmt;

// Why a setup, an event, a question or a script is refused, in document 01's order.
#[derive(Clone, Copy, Debug, PartialEq, Eq)]
pub enum Refusal {
    // n outside 1 to 12.
    Stations = 1,
    // 2f + 1 > n.
    Faults = 2,
    // r, T, D, A or P outside its limits.
    Limits = 3,
    // A faulty mark at n or above, or more than f marks.
    Marks = 4,
    // The gap, the step or the spread rule fails.
    Gap = 5,
    Step = 6,
    Spread = 7,
    // Not n first readings, or one that breaks its rule.
    First = 8,
    // A table without n stations, or a record that breaks a rule.
    Record = 10,
    // An event that is barred whatever the run's state is.
    Barred = 11,
    // Time or a reading past its limit, or the mark behind the last round.
    Exceeds = 12,
    // An increment breaks the drift rule.
    Drifts = 13,
    // A mark would be passed.
    Passes = 14,
    // A message would be overdue.
    Overdue = 15,
    // No such message.
    NoMessage = 16,
    // The sender of a faulty send is sound.
    SoundSender = 17,
    // A needed signature was not made.
    Unsigned = 18,
    // More than 1,024 would be in flight.
    Full = 19,
    // The bytes end inside a number, a setup or an event.
    Cut = 21,
    // A last byte of zero after others.
    LastZero = 22,
    // A tenth byte above 1.
    TenthByte = 23,
    // An unknown event kind.
    Kind = 24,
    // Too short a buffer.
    Short = 25,
    // Input over 65,536 bytes.
    Long = 26,
    // A question names a station that is faulty or at n or above.
    NotSound = 31,
    // A lead is asked of two stations in different rounds.
    Rounds = 32,
}

impl Refusal {
    // Document 01's number. Called, not inlined: its numbers are a table then, and no jump for each.
    #[inline(never)]
    pub fn number(self) -> u64
        ensures { result ≡ given.number self }
    {
        self as u64
    }
}

// The number in decimal.
impl fmt::Display for Refusal {
    ghost output = { λ r. Some (decimal (given.number r)) };

    fn fmt<W: fmt::Write>(&self, f: &mut fmt::Formatter<W>) -> fmt::Result {
        write!(f, "{}", self.number())
    }
}

impl Error for Refusal {}

// The number that a caller gets back: 0 for what is accepted, else the refusal's.
pub fn answer<T>(outcome: &Result<T, Refusal>) -> u64
    ensures { result ≡ given.answer outcome.now }
{
    match outcome {
        Ok(_) => 0,
        Err(refusal) => refusal.number(),
    }
}
