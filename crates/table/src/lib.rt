// A run whose stations lie in one table that the caller lends: a fresh run, an event and a question on it. Each takes the
// stations out, calls the run that goes by value, and puts them back.
#![tactic(auto)]

ghost use Rattle.std.specs.Prelude.{◌≡◌};
ghost use Rattle.line.specs.Fresh.{no_plan};
ghost use Rattle.seating.specs.Seating as seats;
ghost use Rattle.seating.specs.Seating.{line_of};
ghost use Rattle.table.specs.Table as lent;
ghost use Rattle.table.specs.Core as middle;

use event::Event;
use line::{Line, Rest, Shown};
use refusal::Refusal;
use setup::Plan;
use station::Station;

// ---- a fresh run

// A fresh run on the table: real time 0, each sound station in round 0, nothing signed, nothing in flight. Refused by 1 to 8
// there is no run; 10 is asked of the table's length alone, and the table is as it was.
pub fn fresh(plan: Plan, first: &[u64], table: &mut [Station]) -> Result<Rest, Refusal>
    ensures { (seats.as_answered (lent.starting no_plan) result ≡ lent.begun plan first.now table.old)
        × (table.new ≡ lent.begun_table plan first.now table.old) }
{
    let line = line::fresh(plan, first)?;
    if table.len() as u64 != plan.stations {
        return Err(Refusal::Record);
    }
    Ok(seating::store(table, line))
}

// ---- an event

// An event of the run on the table: 10, then 11 to 19. Refused, the run, the table and the words are as they were.
pub fn play(
    rest: Rest,
    table: &mut [Station],
    words: &mut [u64],
    event: Event,
    increments: &[u64],
) -> Result<Rest, Refusal>
    ensures { (seats.as_answered rest result ≡ lent.played rest table.old words.old event increments.now)
        × (table.new ≡ lent.played_table rest table.old words.old event increments.now)
        × (words.new ≡ lent.played_words rest table.old words.old event increments.now) }
{
    let line = run::play(seating::load(rest, table), words, event, increments)?;
    Ok(seating::store(table, line))
}

// ---- a question

// What may be asked: the reading and round of a station, the lead of one over another, the number in flight. No closure: the
// statements in specs/ (`question_answer`, `told`) speak of it as a value.
#[derive(Clone, Copy)]
pub enum Question {
    Reading(u64),
    Lead { of: u64, over: u64 },
    InFlight,
}

// What is told.
#[derive(Clone, Copy)]
pub enum Told {
    Shown(Shown),
    Lead(i64),
    InFlight(u64),
}

// A question to the run by value.
fn tell(l: Line, words: &[u64], question: Question) -> Result<Told, Refusal>
    ensures { middle.as_told question result ≡ middle.told l words.now question }
{
    match question {
        Question::Reading(i) => Ok(Told::Shown(line::reading(l, words, i)?)),
        Question::Lead { of, over } => Ok(Told::Lead(line::lead(l, words, of, over)?)),
        Question::InFlight => Ok(Told::InFlight(line::in_flight(l, words)?)),
    }
}

// A question to the run on the table: 10, then 31, then 32.
pub fn ask(
    rest: Rest,
    table: &[Station],
    words: &[u64],
    question: Question,
) -> Result<Told, Refusal>
    ensures { middle.as_told question result ≡ middle.told (line_of rest table.now) words.now question }
{
    tell(seating::load(rest, table), words, question)
}

// ---- a table of one's own

// A table by value: its stations are the first `length` of twelve places, since memory is fixed.
#[derive(Clone, Copy)]
pub struct Seats {
    pub length: usize,
    pub places: [Station; 12],
}

// What the run has beside such a table, and the table.
#[derive(Clone, Copy)]
pub struct Turned {
    pub rest: Rest,
    pub seats: Seats,
}

// How many of the places are lent: no more than there are.
fn lent_places(seats: Seats) -> usize
    ensures { result ≡ lent.many seats }
{
    seats.length.min(12)
}

// A fresh run on the stations of such a table, which are lent for it; the places behind them are as they were.
pub fn fresh_on(seats: Seats, plan: Plan, first: &[u64]) -> Result<Turned, Refusal>
    ensures { lent.as_turned (lent.starting no_plan) seats result ≡ lent.begun_on seats plan first.now }
{
    let many = lent_places(seats);
    let mut places = seats.places;
    let rest = fresh(plan, first, &mut places[..many])?;
    let seats = Seats { places, ..seats };
    Ok(Turned { rest, seats })
}

// An event of the run on them.
pub fn play_on(
    seats: Seats,
    rest: Rest,
    words: &mut [u64],
    event: Event,
    increments: &[u64],
) -> Result<Turned, Refusal>
    ensures { (lent.as_turned rest seats result ≡ lent.played_on seats rest words.old event increments.now)
        × (words.new ≡ lent.played_words rest (lent.lent_of seats) words.old event increments.now) }
{
    let many = lent_places(seats);
    let mut places = seats.places;
    let rest = play(rest, &mut places[..many], words, event, increments)?;
    let seats = Seats { places, ..seats };
    Ok(Turned { rest, seats })
}
