// Stations in one table that the caller lends: one is taken out, steps by value and is put back, or all of them are, into the
// places of a run that goes by value.
#![tactic(auto)]

ghost use Rattle.std.specs.Prelude.{◌≡◌, ◌<◌, length, get_or, set};
ghost use Rattle.line.specs.Run.{no_station};
ghost use Rattle.line.specs.Fresh.{no_stations};
ghost use Rattle.run.specs.Play.{placed_to};
ghost use Rattle.station.specs.Record as board;
ghost use Rattle.line.specs.Held as held;
ghost use Rattle.seating.specs.Seating as seats;

use line::{Line, Rest};
use refusal::Refusal;
use setup::Plan;
use station::{Outcome, Station};

// ---- one station of the table

// The station in place i; one with nothing in it past the end.
pub fn take(table: &[Station], i: usize) -> Station
    ensures { result ≡ get_or table.now i no_station }
{
    table.get(i).copied().unwrap_or(line::no_station())
}

// The station is put into place i; past the end, nowhere.
pub fn put(table: &mut [Station], i: usize, s: Station)
    ensures { table.new ≡ set table.old i s }
{
    // Tried by `get_mut`: the table behind its reference has no name that a proof may cite.
    if i < table.len() {
        table[i] = s;
    }
}

// What a board does: it hears signatures of a round, or its clock goes on. No closure: the statements in specs/ (`stepped`,
// `step-refused`) speak of it as a value.
#[derive(Clone, Copy)]
pub enum Act {
    Hear { round: u64, signers: u64 },
    Advance(u64),
}

// What station i of so many does: 10 where the table has not n of them, 11 where it is at n or above, else its own answer.
fn done(plan: Plan, many: usize, i: usize, act: Act, s: Station) -> Result<Outcome, Refusal>
    ensures { board.as_board s result ≡ seats.done plan many i act s }
{
    if many as u64 != plan.stations {
        return Err(Refusal::Record);
    }
    if i as u64 >= plan.stations {
        return Err(Refusal::Barred);
    }
    match act {
        Act::Hear { round, signers } => station::hear(plan, round, signers, s),
        Act::Advance(by) => station::advance(plan, i as u64, by, s),
    }
}

// A station of the table does this: it is taken out, steps by value, and is put back. No other station is touched, and none where
// it is refused.
pub fn step(plan: Plan, table: &mut [Station], i: usize, act: Act) -> Result<Outcome, Refusal>
    ensures { (board.as_board (get_or table.old i no_station) result ≡ seats.stepped plan table.old i act)
        × (table.new ≡ seats.stepped_table plan table.old i act) }
{
    let outcome = done(plan, table.len(), i, act, take(table, i))?;
    put(table, i, outcome.station);
    Ok(outcome)
}

// ---- all of them

// The run with its stations taken out of the table, by value.
pub fn load(rest: Rest, table: &[Station]) -> Line
    ensures { result ≡ seats.line_of rest table.now }
{
    let mut stations = [line::no_station(); 12];
    for i in 0..12 {
        stations[i] = take(table, i);
    }
    Line {
        plan: rest.plan,
        time: rest.time,
        length: table.len() as u64,
        stations,
        count: rest.count,
    }
}

// The stations are put back into the table, and what the run has beside it is handed back.
pub fn store(table: &mut [Station], line: Line) -> Rest
    ensures { (result ≡ held.rest_of line)
        × (table.new ≡ placed_to table.old line.stations 12) }
{
    for (i, &s) in line.stations.iter().enumerate() {
        put(table, i, s);
    }
    line.rest()
}
