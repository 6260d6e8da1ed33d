// Plays document 01's rehearsal on a table of stations that is lent for the setup and for each event, and prints its lines.
#![tactic(auto)]

use clock::Moment;
use event::Event;
use refusal::Refusal;
use setup::Plan;
use std::io;
use table::{Seats, Turned};

// Event number, answer, real time and the round of each station.
fn show(rt: &impl Print, number: u64, answer: u64, turned: Turned) -> io::Result<()> {
    let mut end = [0u8; 320];
    let mut out = [0u8; 320];
    let Turned { rest, seats } = turned;
    let Some(stations) = seats.places.get(..seats.length) else {
        return Ok(());
    };
    let long = text::line_end(seating::load(rest, stations), &mut end);
    let Some(end) = end.get(..long) else {
        return Ok(());
    };
    let count = text::event_line(number, answer, end, &mut out, 0);
    paper::print(rt, &out, count)
}

// An event on the table; in an advance the clocks of the two sound stations go on by d.
fn play(before: Turned, words: &mut [u64], event: Event) -> Result<Turned, Refusal> {
    let Turned { rest, seats } = before;
    match event {
        Event::Advance(d) => table::play_on(seats, rest, words, event, &[d, d, 0]),
        _ => table::play_on(seats, rest, words, event, &[]),
    }
}

fn deliver(kind: u64) -> Event {
    Event::Deliver {
        sender: 1,
        recipient: 0,
        round: 1,
        kind,
    }
}

fn send(recipient: u64, signers: u64) -> Event {
    Event::Send {
        sender: 2,
        recipient,
        round: 1,
        signers,
    }
}

fn main(rt: HostRuntime) -> io::Result<()> {
    let plan = Plan {
        stations: 3,
        faults: 1,
        drift: 0,
        bound: 2,
        spread: 2,
        step: 4,
        period: 7,
        faulty: 4,
    };
    let events = [
        Event::Advance(2),
        Event::Advance(3),
        send(0, 1),
        send(1, 4),
        deliver(1),
        Event::Advance(3),
        deliver(0),
        Event::Advance(1),
    ];
    let places = [line::no_station(); 12];
    let begun = table::fresh_on(Seats { length: 3, places }, plan, &[4, 5, 0]);
    let mut out = [0u8; 320];
    let count = text::setup_line(refusal::answer(&begun), &mut out, 0);
    paper::print(&rt, &out, count)?;
    let Ok(mut turned) = begun else {
        return Ok(());
    };
    let mut words = [0u64; 3072];
    for (i, &event) in events.iter().enumerate() {
        let played = play(turned, &mut words, event);
        turned = played.unwrap_or(turned);
        show(&rt, i as u64 + 1, refusal::answer(&played), turned)?;
    }
    Ok(())
}
