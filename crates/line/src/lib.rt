// The run of a line: its record and its rules, and the questions that may be asked of it. The stations lie in the run by
// value, the messages in flight in words that the caller lends.
#![tactic(auto)]

ghost use Rattle.std.specs.Prelude.{◌≡◌, ◌≤◌, [], length};
ghost use Rattle.setup.specs.Laws.{Planned};
ghost use Rattle.flight.specs.Message.{decode, some_of};
ghost use Rattle.model.specs.Run as run;
ghost use Rattle.model.specs.Record as rule;
ghost use Rattle.line.specs.Held as held;
ghost use Rattle.line.specs.Question as question;
ghost use Rattle.line.specs.Fresh as begin;

use clock::{MAX_FLIGHT, MAX_ROUND, MAX_STATIONS, MAX_TIME, Moment, Reading};
use flight::Message;
use refusal::Refusal;
use setup::Plan;
use station::Station;

// A run: its plan, its time, the stations in the first `length` places of the table, and how many messages are in flight.
// The memory is fixed, and 10 asks of the table's length: so the length stands beside a table of twelve.
#[derive(Clone, Copy, Default)]
pub struct Line {
    pub plan: Plan,
    pub time: Moment,
    pub length: u64,
    pub stations: [Station; 12],
    pub count: u64,
}

// What a run has beside its stations: its plan, its time, and how many messages are in flight.
#[derive(Clone, Copy)]
pub struct Rest {
    pub plan: Plan,
    pub time: Moment,
    pub count: u64,
}

impl Line {
    // What the run has beside its stations.
    pub fn rest(self) -> Rest
        ensures { result ≡ held.rest_of self }
    {
        Rest {
            plan: self.plan,
            time: self.time,
            count: self.count,
        }
    }
}

// ---- a fresh run

// A station with nothing in it.
pub fn no_station() -> Station
    ensures { result ≡ run.no_station }
{
    Station::default()
}

// Each station in its place, in round 0 at its first reading, nothing signed.
#[tactic(auto, unfolding(crate::specs::Fresh::seated_to))]
fn seat(first: &[u64]) -> [Station; 12]
    requires { length first.now ≤ 12 }
    ensures { result ≡ begin.seated_to first.now (length first.now) }
{
    let mut table = [no_station(); 12];
    for (i, &x) in first.iter().enumerate() {
        table[i] = Station {
            reading: Reading(x),
            ..no_station()
        };
    }
    table
}

// A run at real time 0, each sound station in round 0, nothing signed, nothing in flight; 1 to 8 for a setup that is
// refused.
pub fn fresh(plan: Plan, first: &[u64]) -> Result<Line, Refusal>
    ensures { begin.as_begun result ≡ begin.begun plan first.now }
{
    setup::answer(plan, first)?;
    Ok(Line {
        plan,
        time: Moment(0),
        length: plan.stations,
        stations: seat(first),
        count: 0,
    })
}

// ---- the record

// A station of the run; one with nothing in it past the last.
fn station_at(l: Line, i: u64) -> Station
    ensures { result ≡ held.place_of l.plan.stations l.stations i }
{
    if i >= l.plan.stations {
        return no_station();
    }
    l.stations.get(i as usize).copied().unwrap_or(no_station())
}

// A station of any record's run; one with nothing in it where the line has more than twelve.
#[tactic(auto, unfolding(crate::specs::Held::station_of))]
pub fn station(l: Line, i: u64) -> Station
    ensures { result ≡ held.station_of l i }
{
    if l.plan.stations > MAX_STATIONS {
        return no_station();
    }
    station_at(l, i)
}

// Whether a station of the line is not marked faulty.
#[tactic(auto, unfolding(model::specs::Run::sound))]
pub fn sound(plan: Plan, i: u64) -> bool
    ensures { result ≡ run.sound plan i }
{
    (i < plan.stations) & !mask::has(plan.faulty, i)
}

// Whether one of a faulty station's fields is not zero.
#[tactic(auto, unfolding(model::specs::Record::bad_faulty))]
fn bad_faulty(s: Station) -> bool
    ensures { result ≡ rule.bad_faulty s }
{
    s != no_station()
}

// What is shown of a station.
#[derive(Clone, Copy, Default)]
pub struct Shown {
    pub reading: Reading,
    pub round: u64,
}

// Whether station i's record breaks its rules.
#[tactic(auto, unfolding(model::specs::Record::bad_station_at, crate::specs::Held::run_of, station::specs::Record::past_limits))]
fn bad_station_at(l: Line, i: u64) -> bool
    requires { Planned l.plan }
    ensures { result ≡ rule.bad_station_at (held.run_of l []) i }
{
    let s = station_at(l, i);
    if mask::has(l.plan.faulty, i) {
        return bad_faulty(s);
    }
    station::bad_station(l.plan, s)
}

// Whether some station's does.
fn some_bad_station(l: Line) -> bool
    requires { Planned l.plan }
    ensures { result ≡ rule.some_station (rule.bad_station_at (held.run_of l [])) l.plan.stations }
{
    (0..l.plan.stations).any(|i| bad_station_at(l, i))
}

// Whether a message's round, kind or mask of signers breaks its rule.
#[tactic(auto, unfolding(model::specs::Record::bad_content))]
fn bad_content(plan: Plan, m: Message) -> bool
    ensures { result ≡ rule.bad_content plan m }
{
    clock::outside(1, MAX_ROUND, m.round)
        | (1 < m.kind)
        | (m.signers == 0)
        | !mask::below(m.signers, plan.stations)
}

// Whether a message's ends or its time break their rule.
#[tactic(auto, unfolding(model::specs::Record::bad_way, crate::specs::Held::run_of))]
fn bad_way(l: Line, m: Message) -> bool
    ensures { result ≡ rule.bad_way (held.run_of l []) m }
{
    !sound(l.plan, m.sender)
        | !sound(l.plan, m.recipient)
        | (m.sender == m.recipient)
        | (l.time.0 < m.sent.0)
}

// Whether a ready's round is above its sender's last signed, or a relay's above its sender's own.
#[tactic(auto, unfolding(model::specs::Record::bad_round, crate::specs::Held::run_of))]
fn bad_round(l: Line, m: Message) -> bool
    ensures { result ≡ rule.bad_round (held.run_of l []) m }
{
    let s = station_at(l, m.sender);
    if m.kind == 0 {
        return s.signed < m.round;
    }
    s.round < m.round
}

// Whether a message in flight breaks a rule.
#[tactic(auto, unfolding(model::specs::Record::bad_message, crate::specs::Held::run_of))]
fn bad_message(l: Line, m: Message) -> bool
    ensures { result ≡ rule.bad_message (held.run_of l []) m }
{
    bad_content(l.plan, m) | bad_way(l, m) | bad_round(l, m)
}

// Whether some message in flight does.
fn some_bad_message(l: Line, words: &[u64]) -> bool
    ensures { result ≡ some_of (rule.bad_message (held.run_of l [])) (decode l.count words.now) }
{
    (0..l.count).any(|i| bad_message(l, flight::message_at(words, i)))
}

// 10: whether the table has another number of stations than n, the words are not for 1,024 messages, or the record breaks a
// rule.
pub fn bad_line(l: Line, words: &[u64]) -> bool
    ensures { result ≡ held.bad_line l words.now }
{
    if l.length != l.plan.stations {
        return true;
    }
    if words.len() as u64 != 3 * MAX_FLIGHT {
        return true;
    }
    if setup::plan_answer(l.plan).is_err() {
        return true;
    }
    if MAX_TIME < l.time.0 {
        return true;
    }
    if some_bad_station(l) {
        return true;
    }
    if MAX_FLIGHT < l.count {
        return true;
    }
    if some_bad_message(l, words) {
        return true;
    }
    notes::twins(words, l.count)
}

// ---- questions

// The reading and round of a station.
pub fn reading(l: Line, words: &[u64], i: u64) -> Result<Shown, Refusal>
    ensures { question.as_shown result ≡ question.shown l words.now i }
{
    if bad_line(l, words) {
        return Err(Refusal::Record);
    }
    if !sound(l.plan, i) {
        return Err(Refusal::NotSound);
    }
    let s = station_at(l, i);
    Ok(Shown {
        reading: s.reading,
        round: s.round,
    })
}

// The lead of station a over b: its reading less the other's, below zero where a is behind.
pub fn lead(l: Line, words: &[u64], a: u64, b: u64) -> Result<i64, Refusal>
    ensures { question.as_led result ≡ question.led l words.now a b }
{
    if bad_line(l, words) {
        return Err(Refusal::Record);
    }
    if !sound(l.plan, a) | !sound(l.plan, b) {
        return Err(Refusal::NotSound);
    }
    let x = station_at(l, a);
    let y = station_at(l, b);
    if x.round != y.round {
        return Err(Refusal::Rounds);
    }
    Ok(x.reading.lead(y.reading))
}

// The number of messages in flight.
#[tactic(auto, unfolding(crate::specs::Question::in_flight))]
pub fn in_flight(l: Line, words: &[u64]) -> Result<u64, Refusal>
    ensures { question.as_in_flight result ≡ question.in_flight l words.now }
{
    if bad_line(l, words) {
        return Err(Refusal::Record);
    }
    Ok(l.count)
}
