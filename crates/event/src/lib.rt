// The three events of a run, and rule 11: which events are barred whatever the run's state is.
#![tactic(auto)]

ghost use Rattle.std.specs.Prelude.{◌≡◌, ◌<◌, length, unwrap_or, IfSome};
ghost use Rattle.clock.specs.Tests.{some_to};
ghost use Rattle.event.specs.Event as rule;

// An event. An advance's increments, one per station, are lent beside it.
#[derive(Clone, Copy)]
pub enum Event {
    // By d.
    Advance(u64),
    // A message, named by sender, recipient, round and kind (ready 0, relay 1). The kind is a number, since 11 (`barred`) answers any above 1.
    Deliver {
        sender: u64,
        recipient: u64,
        round: u64,
        kind: u64,
    },
    // From a faulty to a sound station: a round and a mask of signers.
    Send {
        sender: u64,
        recipient: u64,
        round: u64,
        signers: u64,
    },
}

// Whether station i's increment is over its limit, or nonzero where the station is faulty.
fn bad_increment(faulty: u64, i: u64, x: u64) -> bool
    ensures { result ≡ rule.bad_increment faulty i x }
{
    (clock::MAX_INCREMENT < x) | (mask::has(faulty, i) & (x != 0))
}

// Whether one of the increments is barred.
fn some_bad_increment(faulty: u64, increments: &[u64]) -> bool
    ensures { result ≡ some_to (rule.bad_increment faulty) increments.now (length increments.now) }
{
    increments
        .iter()
        .enumerate()
        .any(|(i, &x)| bad_increment(faulty, i as u64, x))
}

// Whether an advance is barred: d outside its limits, not n increments, or one that is barred.
fn bad_advance(stations: u64, faulty: u64, d: u64, increments: &[u64]) -> bool
    ensures { result ≡ rule.bad_advance stations faulty d increments.now }
{
    clock::outside(1, clock::MAX_ADVANCE, d)
        | (increments.len() as u64 != stations)
        | some_bad_increment(faulty, increments)
}

// Whether the ends or the round of a message are barred.
fn bad_ends(stations: u64, faulty: u64, sender: u64, recipient: u64, round: u64) -> bool
    ensures { result ≡ rule.bad_ends stations faulty sender recipient round }
{
    (stations <= sender)
        | (stations <= recipient)
        | (sender == recipient)
        | mask::has(faulty, recipient)
        | clock::outside(1, clock::MAX_ROUND, round)
}

// Whether rule 11 bars an event of a line of so many stations with these faulty ones. Each event of a script is asked, so
// there is no call.
#[inline(always)]
pub fn barred(stations: u64, faulty: u64, event: Event, increments: &[u64]) -> bool
    ensures { result ≡ rule.barred stations faulty event increments.now }
{
    match event {
        Event::Advance(d) => bad_advance(stations, faulty, d, increments),
        Event::Deliver {
            sender,
            recipient,
            round,
            kind,
        } => bad_ends(stations, faulty, sender, recipient, round) | (1 < kind),
        Event::Send {
            sender,
            recipient,
            round,
            signers,
        } => {
            bad_ends(stations, faulty, sender, recipient, round)
                | (signers == 0)
                | !mask::below(signers, stations)
        }
    }
}

// The station that hears an event: the recipient of a message that 11 does not bar. There is none for an advance or a barred
// message.
pub fn hearer(stations: u64, faulty: u64, event: Event) -> Option<u64>
    ensures heard { unwrap_or result stations ≡ rule.hearer stations faulty event }
    ensures within { IfSome result (λ i. i < stations) }
{
    match event {
        Event::Advance(_) => None,
        Event::Deliver { recipient, .. } | Event::Send { recipient, .. } => {
            if barred(stations, faulty, event, &[]) {
                None
            } else {
                Some(recipient)
            }
        }
    }
}
