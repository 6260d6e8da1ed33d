// The three events of a run: advance, deliver and faulty send. `play` checks the record first; the step behind it needs a
// valid one and never tests it again, for whoever plays many.
#![tactic(auto)]

ghost use Rattle.std.specs.Prelude.{◌≡◌, [], ◌++◌, false, ◌&&◌, not, ◌+◌, ◌*◌, ◌^◌, ◌≤◌, ◌<◌, eqb, length};
ghost use Rattle.clock.specs.Limits.{max_flight};
ghost use Rattle.clock.specs.Pick.{pick};
ghost use Rattle.flight.specs.Message.{decode, coded, can_take, answer, after, without};
ghost use Rattle.event.specs.Event as rule11;
ghost use Rattle.event.specs.declared.Event.TheVariants.{Advance, Deliver, Send};
ghost use Rattle.line.specs.Run as run;
ghost use Rattle.line.specs.Record.{some_station};
ghost use Rattle.line.specs.Event as rule;
ghost use Rattle.line.specs.Moves.{advance_sends};
ghost use Rattle.line.specs.Held.{run_of};
ghost use Rattle.run.specs.Play as play;
ghost use Rattle.run.specs.Limits.{Held, Settled, Going};
ghost use Rattle.run.specs.Sends as sent;
ghost use Rattle.run.specs.Sends.{Room};
ghost use Rattle.run.specs.Hearing as hear;
ghost use Rattle.run.specs.Advance as going;

mod parts;

use clock::{MAX_FLIGHT, MAX_TIME, Moment};
use event::Event;
use flight::{Message, Names};
use line::{Line, Rest};
pub use parts::{Part, play_part};
use refusal::Refusal;
use setup::Plan;
use station::{Outcome, Station};

// ---- what a station sends

// The other sound stations.
fn others(plan: Plan, i: u64) -> u64
    ensures { result ≡ run.others plan i }
{
    let sound = mask::minus(mask::all(plan.stations), plan.faulty);
    mask::minus(sound, mask::only(i))
}

// So many where the test holds, else none.
fn part(test: bool, many: u64) -> u64
    ensures { result ≡ pick test many 0 }
{
    if test { many } else { 0 }
}

// Whether a station that has done this sends nothing, as most do.
fn quiet(o: Outcome) -> bool
    ensures { result ≡ (not o.ready && eqb o.relay 0) }
{
    !o.ready && o.relay == 0
}

// How many messages station i sends to the others when it has done this.
fn count_sent(plan: Plan, i: u64, o: Outcome) -> u64
    ensures { result ≡ sent.sent_by plan i o }
{
    if quiet(o) {
        return 0;
    }
    let many = mask::count(others(plan, i) % 4096);
    part(o.ready, many) + part(o.relay != 0, many)
}

// What station i sends to the others when it has done this of a round: its ready first, then its relay. The answer is the
// number of messages then.
fn tell(rest: Rest, words: &mut [u64], i: u64, round: u64, o: Outcome) -> u64
    requires { Room words.old rest.count rest.plan rest.time.0 i round o }
    ensures value { result ≡ rest.count + sent.sent_by rest.plan i o }
    ensures words_after { words.new ≡ coded words.old
        (decode rest.count words.old ++ run.sends rest.plan rest.time.0 i round o) }
{
    let count = rest.count;
    if quiet(o) {
        return count;
    }
    let to = others(rest.plan, i);
    let ready = Message {
        sender: i,
        recipient: 0,
        round,
        kind: 0,
        signers: mask::only(i),
        sent: rest.time,
    };
    let relay = Message {
        sender: i,
        recipient: 0,
        round,
        kind: 1,
        signers: o.relay,
        sent: rest.time,
    };
    let behind = flight::send(words, count, ready, part(o.ready, to)).unwrap_or(count);
    flight::send(words, behind, relay, part(o.relay != 0, to)).unwrap_or(behind)
}

// ---- hearing

// A station that has heard, and how many messages there are then.
#[derive(Clone, Copy)]
struct Heard {
    station: Station,
    count: u64,
}

// The message at this place leaves the flight, and where the last one lies then is noted. The answer is the number of
// messages.
fn take_out(words: &mut [u64], count: u64, at: u64, places: &mut [u64]) -> u64
    requires { at + 1 < 2 ^ 64 }
    ensures value { result ≡ (answer (can_take count words.old at) count (without at (decode count words.old))).count }
    ensures words_after { words.new ≡ after (can_take count words.old at) words.old (without at (decode count words.old)) }
{
    let left = flight::take_out(words, count, at).unwrap_or(count);
    notes::note_places(words, at, at + 1, places);
    left
}

// What station i sends to the others, and where it lies is noted.
fn tell_noted(
    rest: Rest,
    words: &mut [u64],
    i: u64,
    round: u64,
    o: Outcome,
    places: &mut [u64],
) -> u64
    requires { Room words.old rest.count rest.plan rest.time.0 i round o }
    ensures value { result ≡ rest.count + sent.sent_by rest.plan i o }
    ensures words_after { words.new ≡ coded words.old
        (decode rest.count words.old ++ run.sends rest.plan rest.time.0 i round o) }
{
    // Most send nothing: these need no call.
    if quiet(o) {
        return rest.count;
    }
    let after = tell(rest, words, i, round, o);
    notes::note_places(words, rest.count, after, places);
    after
}

// Deliver: the message leaves the flight and its recipient gathers it.
fn deliver(
    rest: Rest,
    s: Station,
    words: &mut [u64],
    places: &mut [u64],
    names: Names,
) -> Result<Heard, Refusal>
    requires { hear.Stands rest.plan rest.time rest.count names.recipient s words.old }
    ensures { hear.Does rest.plan rest.time rest.count names.recipient s words.old (play.deliver_of names) (hear.as_heard s rest.count result) words.new }
{
    let Some(at) = flight::find(words, rest.count, names, places) else {
        return Err(Refusal::NoMessage);
    };
    let m = flight::message_at(words, at);
    let o = station::heard(rest.plan, names.round, m.signers, s);
    if MAX_FLIGHT < rest.count - 1 + count_sent(rest.plan, names.recipient, o) {
        return Err(Refusal::Full);
    }
    let left = take_out(words, rest.count, at, places);
    let rest = Rest {
        count: left,
        ..rest
    };
    let count = tell_noted(rest, words, names.recipient, s.round + 1, o, places);
    Ok(Heard {
        station: o.station,
        count,
    })
}

// Whether station i is a sound signer whose last signed round is another.
fn unsigned_at(plan: Plan, signed: u64, round: u64, signers: u64, i: u64) -> bool
    ensures { result ≡ hear.unsigned_in plan signed round signers i }
{
    mask::has(signers, i) && line::sound(plan, i) && signed != round
}

// Whether some station is. The last signed rounds are lent beside it.
fn some_unsigned(plan: Plan, signed: &[u64], round: u64, signers: u64) -> bool
    requires { plan.stations ≤ length signed.now }
    ensures { result ≡ some_station (hear.unsigned_by plan signed.now round signers) plan.stations }
{
    (0..plan.stations).any(|i| unsigned_at(plan, signed[i as usize], round, signers, i))
}

// Whether a signature that the send needs was not made; those of another round than the one waited for need none.
fn unsigned(plan: Plan, signed: &[u64], s: Station, round: u64, signers: u64) -> bool
    requires { (plan.stations ≤ length signed.now) × (s.round + 1 < 2 ^ 64) }
    ensures { result ≡ (eqb round (s.round + 1) && some_station (hear.unsigned_by plan signed.now round signers) plan.stations) }
{
    if round != s.round + 1 {
        return false;
    }
    some_unsigned(plan, signed, round, signers)
}

// Faulty send: a round and a mask of signers, gathered at once.
fn send(
    rest: Rest,
    s: Station,
    signed: &[u64],
    words: &mut [u64],
    places: &mut [u64],
    sender: u64,
    recipient: u64,
    round: u64,
    signers: u64,
) -> Result<Heard, Refusal>
    requires stands { hear.Stands rest.plan rest.time rest.count recipient s words.old }
    requires signed_len { length signed.now ≡ 12 }
    ensures { hear.DoesBy signed.now rest.plan rest.time rest.count recipient s words.old (Send sender recipient round signers)
        (hear.as_heard s rest.count result) words.new }
{
    if !mask::has(rest.plan.faulty, sender) {
        return Err(Refusal::SoundSender);
    }
    if unsigned(rest.plan, signed, s, round, signers) {
        return Err(Refusal::Unsigned);
    }
    let o = station::heard(rest.plan, round, signers, s);
    if MAX_FLIGHT < rest.count + count_sent(rest.plan, recipient, o) {
        return Err(Refusal::Full);
    }
    let count = tell_noted(rest, words, recipient, s.round + 1, o, places);
    Ok(Heard {
        station: o.station,
        count,
    })
}

// What an event comes to at the station that hears it.
fn hear(
    rest: Rest,
    s: Station,
    signed: &[u64],
    words: &mut [u64],
    places: &mut [u64],
    event: Event,
) -> Result<Heard, Refusal>
    requires stands { hear.Stands rest.plan rest.time rest.count (hear.recipient_or rest.plan.stations event) s words.old }
    requires signed_len { length signed.now ≡ 12 }
    ensures { hear.DoesBy signed.now rest.plan rest.time rest.count (hear.recipient_or rest.plan.stations event) s words.old event
        (hear.as_heard s rest.count result) words.new }
{
    match event {
        Event::Advance(_) => Err(Refusal::Barred),
        Event::Deliver {
            sender,
            recipient,
            round,
            kind,
        } => {
            let names = Names {
                sender,
                recipient,
                round,
                kind,
            };
            deliver(rest, s, words, places, names)
        }
        Event::Send {
            sender,
            recipient,
            round,
            signers,
        } => send(
            rest, s, signed, words, places, sender, recipient, round, signers,
        ),
    }
}

// The last signed round of each station.
fn note_signed(l: Line, signed: &mut [u64])
    requires { (l.plan.stations ≤ 12) × (l.plan.stations ≤ length signed.old) }
    ensures { signed.new ≡ hear.signed_to l signed.old l.plan.stations }
{
    for i in 0..l.plan.stations {
        signed[i as usize] = l.stations[i as usize].signed;
    }
}

// The station that has heard takes its new place.
fn seat(mut l: Line, i: u64, h: Heard) -> Line
    requires { i < 12 }
    ensures { result ≡ hear.seated l i h.station h.count }
{
    l.stations[i as usize] = h.station;
    l.count = h.count;
    l
}

// ---- advancing
// That the record is valid (`Held`) and that the increments fit it (`Going`) is said in each contract: both are of the run by value
// and of what is lent beside it, so a type would have to hold lent words that change.

// Which of 12, 13 and 14 an increment meets; 14 only where it does not meet 12.
#[derive(Clone, Copy)]
struct Meets {
    exceeds: bool,
    drifts: bool,
    passes: bool,
}

// What station i's increment meets.
fn meets_at(plan: Plan, d: u64, by: u64, i: u64, s: Station) -> Meets
    ensures { result ≡ going.meets_in plan d by i s }
{
    let refused = station::refuses(plan, by, s).err();
    Meets {
        exceeds: refused == Some(Refusal::Exceeds),
        drifts: line::sound(plan, i) && !clock::in_drift(plan.drift, d, by),
        passes: refused == Some(Refusal::Passes),
    }
}

// What some station's increment meets.
fn meets_some(l: Line, d: u64, increments: &[u64]) -> Meets
    requires { Going l d increments.now }
    ensures { result ≡ going.meets_to l d increments.now l.plan.stations }
{
    let mut exceeds = false;
    let mut drifts = false;
    let mut passes = false;
    for i in 0..l.plan.stations {
        let t = meets_at(l.plan, d, increments[i as usize], i, l.stations[i as usize]);
        exceeds |= t.exceeds;
        drifts |= t.drifts;
        passes |= t.passes;
    }
    Meets {
        exceeds,
        drifts,
        passes,
    }
}

// The stations after an advance, and how many messages they send: each clock goes on, and a station signs where that brings
// it up to the mark.
#[derive(Clone, Copy)]
struct Turns {
    stations: [Station; 12],
    sent: u64,
}

fn take_turns(l: Line, d: u64, increments: &[u64]) -> Turns
    requires { Going l d increments.now }
    ensures { result ≡ going.turns_to l increments.now l.plan.stations }
{
    let mut stations = l.stations;
    let mut sent = 0;
    for i in 0..l.plan.stations {
        let o = station::advanced(l.plan, i, increments[i as usize], l.stations[i as usize]);
        stations[i as usize] = o.station;
        sent += count_sent(l.plan, i, o);
    }
    Turns { stations, sent }
}

// What each of them sends, in order. The answer is the number of messages then.
fn tell_all(l: Line, words: &mut [u64], d: u64, increments: &[u64]) -> u64
    requires held { Held l words.old }
    requires going { Going l d increments.now }
    requires room { l.count + going.sent_to l increments.now l.plan.stations ≤ max_flight }
    ensures value { result ≡ l.count + going.sent_to l increments.now l.plan.stations }
    ensures words_after { words.new ≡ coded words.old
        (decode l.count words.old ++ advance_sends (run_of l []) d increments.now l.plan.stations) }
{
    let time = l.time.after(d);
    let mut count = l.count;
    for i in 0..l.plan.stations {
        let s = l.stations[i as usize];
        let o = station::advanced(l.plan, i, increments[i as usize], s);
        let rest = Rest {
            plan: l.plan,
            time,
            count,
        };
        count = tell(rest, words, i, s.round + 1, o);
    }
    count
}

// Advance: readings and time move, and those that land sign.
fn advance(l: Line, words: &mut [u64], d: u64, increments: &[u64]) -> Result<Line, Refusal>
    requires held { Held l words.old }
    requires going { Going l d increments.now }
    ensures value { play.as_played l result ≡ play.ruled l words.old (Advance d) increments.now }
    ensures words_after { words.new ≡ play.ruled_words l words.old (Advance d) increments.now }
{
    let time = l.time.after(d);
    let t = meets_some(l, d, increments);
    if (MAX_TIME < time.0) | t.exceeds {
        return Err(Refusal::Exceeds);
    }
    if t.drifts {
        return Err(Refusal::Drifts);
    }
    if t.passes {
        return Err(Refusal::Passes);
    }
    if notes::overdue(words, l.count, time, l.plan.bound) {
        return Err(Refusal::Overdue);
    }
    let Turns { stations, sent } = take_turns(l, d, increments);
    if MAX_FLIGHT < l.count + sent {
        return Err(Refusal::Full);
    }
    let count = tell_all(l, words, d, increments);
    Ok(Line {
        time,
        stations,
        count,
        ..l
    })
}

// ---- events

// An event that no station hears: 11 where it is barred, else an advance.
fn pass(l: Line, words: &mut [u64], event: Event, increments: &[u64]) -> Result<Line, Refusal>
    requires held { Held l words.old }
    requires nobody { l.plan.stations ≤ rule11.hearer l.plan.stations l.plan.faulty event }
    ensures value { play.as_played l result ≡ play.stepped l words.old event increments.now }
    ensures words_after { words.new ≡ play.stepped_words l words.old event increments.now }
{
    if event::barred(l.plan.stations, l.plan.faulty, event, increments) {
        return Err(Refusal::Barred);
    }
    match event {
        Event::Advance(d) => advance(l, words, d, increments),
        Event::Deliver { .. } | Event::Send { .. } => Err(Refusal::Barred),
    }
}

// An event of a valid record: 11 to 19, or 0 and what it does.
fn step(l: Line, words: &mut [u64], event: Event, increments: &[u64]) -> Result<Line, Refusal>
    requires { Held l words.old }
    ensures value { play.as_played l result ≡ play.stepped l words.old event increments.now }
    ensures words_after { words.new ≡ play.stepped_words l words.old event increments.now }
{
    let Some(i) = event::hearer(l.plan.stations, l.plan.faulty, event) else {
        return pass(l, words, event, increments);
    };
    let mut signed = [0u64; 12];
    note_signed(l, &mut signed);
    let mut places = [0u64; 1];
    let h = hear(
        l.rest(),
        l.stations[i as usize],
        &signed,
        words,
        &mut places,
        event,
    )?;
    Ok(seat(l, i, h))
}

// An event of any record: 10, then as for a valid one. Refused, the run and the words are as they were.
pub fn play(l: Line, words: &mut [u64], event: Event, increments: &[u64]) -> Result<Line, Refusal>
    ensures value { play.as_played l result ≡ play.played l words.old event increments.now }
    ensures words_after { words.new ≡ play.played_words l words.old event increments.now }
{
    if line::bad_line(l, words) {
        return Err(Refusal::Record);
    }
    step(l, words, event, increments)
}
