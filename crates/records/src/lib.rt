// One event or question on a record that is read for it, printed on standard output: the answer, and the record then.
#![tactic(auto)]

ghost use Rattle.std.specs.Prelude.{◌≤◌, IfOk};

use clock::{MAX_FLIGHT, Moment, Reading};
use event::Event;
use flight::Message;
use line::{Line, Shown};
use paper::{Told, Values};
use reader::Reader;
use refusal::Refusal;
use setup::Plan;
use station::Station;
use std::io;

// ---- numbers

// A count of no more than so many; 24 for a larger one.
fn at_most(count: u64, most: u64) -> Result<usize, Refusal>
    ensures { IfOk result (λ n. n ≤ most) }
{
    if count <= most {
        Ok(count as usize)
    } else {
        Err(Refusal::Kind)
    }
}

fn read_plan(numbers: &mut Reader) -> Result<Plan, Refusal> {
    Ok(Plan {
        stations: numbers.number()?,
        faults: numbers.number()?,
        drift: numbers.number()?,
        bound: numbers.number()?,
        spread: numbers.number()?,
        step: numbers.number()?,
        period: numbers.number()?,
        faulty: numbers.number()?,
    })
}

fn read_station(numbers: &mut Reader) -> Result<Station, Refusal> {
    Ok(Station {
        round: numbers.number()?,
        reading: Reading(numbers.number()?),
        signed: numbers.number()?,
        gathered: numbers.number()?,
    })
}

fn read_message(numbers: &mut Reader) -> Result<Message, Refusal> {
    Ok(Message {
        sender: numbers.number()?,
        recipient: numbers.number()?,
        round: numbers.number()?,
        kind: numbers.number()?,
        signers: numbers.number()?,
        sent: Moment(numbers.number()?),
    })
}

fn read_increments(numbers: &mut Reader) -> Result<Increments, Refusal> {
    let count = at_most(numbers.number()?, 16)?;
    let mut places = [0u64; 16];
    for x in &mut places[..count] {
        *x = numbers.number()?;
    }
    Ok(Increments { places, count })
}

// ---- an event or a question

// The numbers that stand for the kinds of both.
#[derive(Clone, Copy)]
enum Kind {
    Advance,
    Deliver,
    Send,
    Reading,
    Lead,
    InFlight,
}

impl TryFrom<u64> for Kind {
    type Error = Refusal;

    fn try_from(code: u64) -> Result<Self, Refusal> {
        match code {
            1 => Ok(Kind::Advance),
            2 => Ok(Kind::Deliver),
            3 => Ok(Kind::Send),
            11 => Ok(Kind::Reading),
            12 => Ok(Kind::Lead),
            13 => Ok(Kind::InFlight),
            _ => Err(Refusal::Kind),
        }
    }
}

// An advance's increments: the first `count` of the places, since memory is fixed. Another event has none.
#[derive(Clone, Copy)]
struct Increments {
    places: [u64; 16],
    count: usize,
    ghost few: { count ≤ 16 },
}

const NONE: Increments = Increments {
    places: [0; 16],
    count: 0,
};

// What is asked of a record.
#[derive(Clone, Copy)]
enum Asked {
    Event(Event, Increments),
    Reading(u64),
    Lead { of: u64, over: u64 },
    InFlight,
}

fn read_asked(numbers: &mut Reader) -> Result<Asked, Refusal> {
    Ok(match Kind::try_from(numbers.number()?)? {
        Kind::Advance => Asked::Event(Event::Advance(numbers.number()?), read_increments(numbers)?),
        Kind::Deliver => {
            let event = Event::Deliver {
                sender: numbers.number()?,
                recipient: numbers.number()?,
                round: numbers.number()?,
                kind: numbers.number()?,
            };
            Asked::Event(event, NONE)
        }
        Kind::Send => {
            let event = Event::Send {
                sender: numbers.number()?,
                recipient: numbers.number()?,
                round: numbers.number()?,
                signers: numbers.number()?,
            };
            Asked::Event(event, NONE)
        }
        Kind::Reading => Asked::Reading(numbers.number()?),
        Kind::Lead => Asked::Lead {
            of: numbers.number()?,
            over: numbers.number()?,
        },
        Kind::InFlight => Asked::InFlight,
    })
}

// ---- a record

// A record as it was read: of the places, whose memory is fixed, those are filled that `length` and `count` give, as far as there are any.
#[derive(Drop)]
struct Sheet {
    plan: Plan,
    time: Moment,
    length: usize,
    stations: [Station; 16],
    count: u64,
    messages: [Message; 1024],
    ghost seated: { length ≤ 16 },
}

// How many of the messages have a place.
fn placed(count: u64) -> usize
    ensures { result ≤ 1024 }
{
    count.min(MAX_FLIGHT) as usize
}

impl Sheet {
    // The record is read where the sheet lies: it is large, and not handed on by value. By place: the check finds no proof of a loop
    // over the places themselves.
    fn read(&mut self, numbers: &mut Reader) -> Result<(), Refusal> {
        self.plan = read_plan(numbers)?;
        self.time = Moment(numbers.number()?);
        let length = at_most(numbers.number()?, 16)?;
        self.length = length;
        for i in 0..length {
            self.stations[i] = read_station(numbers)?;
        }
        self.count = numbers.number()?;
        for i in 0..placed(self.count) {
            self.messages[i] = read_message(numbers)?;
        }
        Ok(())
    }

    // Lays the messages into the words. Whether these hold all of them.
    fn lay(&self, words: &mut [u64]) -> bool {
        let all = placed(self.count);
        let mut count = 0;
        for &m in &self.messages[..all] {
            count = flight::send(words, count, m, mask::only(m.recipient)).unwrap_or(count);
        }
        count == all as u64
    }

    // The record as the run holds it. Where the words don't hold the messages no place of the table is filled, so that the
    // record is refused.
    fn line(&self, laid: bool) -> Line {
        let mut stations = [line::no_station(); 12];
        stations.copy_from_slice(&self.stations[..12]);
        Line {
            plan: self.plan,
            time: self.time,
            length: if laid { self.length as u64 } else { 0 },
            stations,
            count: self.count,
        }
    }

    // The record that an accepted event leaves.
    fn keep(&mut self, l: Line, words: &[u64]) {
        self.time = l.time;
        self.count = l.count;
        for (i, &s) in l.stations.iter().enumerate() {
            self.stations[i] = s;
        }
        for i in 0..placed(l.count) {
            self.messages[i] = flight::message_at(words, i as u64);
        }
    }
}

// Reads a record and what is asked of it; 24 for bytes behind the end. Refused, the sheet holds what was read till then.
fn read(bytes: &[u8], sheet: &mut Sheet) -> Result<Asked, Refusal> {
    let mut numbers = Reader::at(bytes, 0);
    sheet.read(&mut numbers)?;
    let asked = read_asked(&mut numbers)?;
    if numbers.place() != bytes.len() {
        return Err(Refusal::Kind);
    }
    Ok(asked)
}

// ---- both

// An event, and the record then.
fn play(
    sheet: &mut Sheet,
    l: Line,
    words: &mut [u64],
    event: Event,
    by: Increments,
) -> Result<(), Refusal> {
    let next = run::play(l, words, event, &by.places[..by.count])?;
    sheet.keep(next, words);
    Ok(())
}

// What is asked of the record: the answer, and the values of a question, which are zero where it refuses.
fn answer(sheet: &mut Sheet, asked: Asked) -> Told {
    let mut words = [0u64; 3072];
    let laid = sheet.lay(&mut words);
    let l = sheet.line(laid);
    match asked {
        Asked::Event(event, by) => {
            let played = play(sheet, l, &mut words, event, by);
            Told {
                answer: refusal::answer(&played),
                values: Values::Event,
            }
        }
        Asked::Reading(i) => {
            let shown = line::reading(l, &words, i);
            let Shown { reading, round } = shown.unwrap_or_default();
            Told {
                answer: refusal::answer(&shown),
                values: Values::Reading { reading, round },
            }
        }
        Asked::Lead { of, over } => {
            let led = line::lead(l, &words, of, over);
            Told {
                answer: refusal::answer(&led),
                values: Values::Lead(led.unwrap_or_default()),
            }
        }
        Asked::InFlight => {
            let flying = line::in_flight(l, &words);
            Told {
                answer: refusal::answer(&flying),
                values: Values::InFlight(flying.unwrap_or_default()),
            }
        }
    }
}

// One record, and one event or question on it: reads both, and prints the answer and the record then.
pub fn single(rt: &impl Print, bytes: &[u8]) -> io::Result<()> {
    let mut sheet = Sheet {
        plan: Plan::default(),
        time: Moment(0),
        length: 0,
        stations: [line::no_station(); 16],
        count: 0,
        messages: [flight::unpack(0, 0, 0); 1024],
    };
    match read(bytes, &mut sheet) {
        Ok(asked) => {
            let told = answer(&mut sheet, asked);
            let stations = &sheet.stations[..sheet.length];
            let messages = &sheet.messages[..placed(sheet.count)];
            paper::show(rt, told, sheet.time, stations, messages)
        }
        Err(stop) => paper::show_stop(rt, stop.number()),
    }
}
