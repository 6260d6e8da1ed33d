// Setups and events read from a script's bytes. `let .. else` takes each number and the place behind it, or passes the
// refusal on.
ghost use Rattle.std.specs.Prelude.{◌≡◌, ◌+◌, ◌≤◌};
ghost use Rattle.script.specs.Read as form;

use event::Event;
use number::read_number;
use refusal::Refusal;
use setup::Plan;

// Numbers that were read one behind the other, in fixed memory, and the place behind them.
#[derive(Clone, Copy)]
struct Numbers {
    values: [u64; 12],
    next: usize,
}

// A setup that was read to its end, and the place behind it. The first readings are the first n of `first`.
#[derive(Clone, Copy)]
pub struct SetupRead {
    pub plan: Plan,
    pub first: [u64; 12],
    pub next: usize,
}

// An event that was read to its end, and the place behind it. An advance's increments are the first n.
#[derive(Clone, Copy)]
pub struct EventRead {
    pub event: Event,
    pub increments: [u64; 12],
    pub next: usize,
}

// Reads so many numbers.
fn read_numbers(bytes: &[u8], at: usize, count: usize) -> Result<Numbers, Refusal>
    requires { count ≤ 12 }
    ensures { form.told_numbers bytes.now result ≡ form.as_numbers bytes.now (form.read_many count bytes.now at) }
{
    let mut values = [0; 12];
    let mut place = at;
    for value in &mut values[..count] {
        let answer = read_number(bytes, place);
        let Ok((v, next)) = answer else {
            return Err(answer.unwrap_err());
        };
        *value = v;
        place = next;
    }
    Ok(Numbers {
        values,
        next: place,
    })
}

// n and the seven numbers behind it as a plan.
#[tactic(auto, unfolding(crate::specs::Read::plan_of))]
fn plan_of(n: u64, values: [u64; 12]) -> Plan
    ensures { result ≡ form.plan_of n values }
{
    Plan {
        stations: n,
        faults: values[0],
        drift: values[1],
        bound: values[2],
        spread: values[3],
        step: values[4],
        period: values[5],
        faulty: values[6],
    }
}

// Reads a setup: n, f, r, T, D, A, P, the faulty mask and n first readings; or the refusal: 1 as soon as n is read, or 21 to
// 23.
pub fn read_setup(bytes: &[u8], at: usize) -> Result<SetupRead, Refusal>
    ensures { form.told_setup bytes.now result ≡ form.as_setup bytes.now (form.read_setup bytes.now at) }
{
    let answer = read_number(bytes, at);
    let Ok((n, behind)) = answer else {
        return Err(answer.unwrap_err());
    };
    if clock::outside(1, clock::MAX_STATIONS, n) {
        return Err(Refusal::Stations);
    }
    let named = read_numbers(bytes, behind, 7)?;
    let Numbers {
        values: first,
        next,
    } = read_numbers(bytes, named.next, n as usize)?;
    Ok(SetupRead {
        plan: plan_of(n, named.values),
        first,
        next,
    })
}

// The unread rest of a script behind its setup: that part of it, and no copy. Where 1 or 21 to 23 stops the reading, the
// empty part at the script's end.
pub fn rest(bytes: &[u8]) -> &[u8]
    ensures bytes_left { result.now ≡ form.rest_of bytes.now }
    ensures address { result.ref_ptr ≡ (bytes.entry.ref_ptr.0, form.rest_at bytes.now + bytes.entry.ref_ptr.1) }
{
    match read_setup(bytes, 0) {
        Ok(read) => &bytes[read.next..],
        Err(_) => &bytes[bytes.len()..],
    }
}

// Reads what stands behind kind 1: d and n increments.
fn read_advance(bytes: &[u8], at: usize, stations: usize) -> Result<EventRead, Refusal>
    requires { stations ≤ 12 }
    ensures { form.told_event bytes.now result ≡ form.as_event bytes.now (form.advance_from stations bytes.now at) }
{
    let answer = read_number(bytes, at);
    let Ok((d, behind)) = answer else {
        return Err(answer.unwrap_err());
    };
    let Numbers {
        values: increments,
        next,
    } = read_numbers(bytes, behind, stations)?;
    Ok(EventRead {
        event: Event::Advance(d),
        increments,
        next,
    })
}

// Reads what stands behind kind 2: sender, recipient, round, message kind. One function for kinds 2 and 3 would test the kind
// again.
fn read_deliver(bytes: &[u8], at: usize) -> Result<EventRead, Refusal>
    ensures { form.told_event bytes.now result ≡ form.as_event bytes.now (form.deliver_from (form.read_many 4 bytes.now at)) }
{
    let Numbers { values, next } = read_numbers(bytes, at, 4)?;
    let [sender, recipient, round, kind, ..] = values;
    Ok(EventRead {
        event: Event::Deliver {
            sender,
            recipient,
            round,
            kind,
        },
        increments: [0; 12],
        next,
    })
}

// Reads what stands behind kind 3: sender, recipient, round, signers.
fn read_send(bytes: &[u8], at: usize) -> Result<EventRead, Refusal>
    ensures { form.told_event bytes.now result ≡ form.as_event bytes.now (form.send_from (form.read_many 4 bytes.now at)) }
{
    let Numbers { values, next } = read_numbers(bytes, at, 4)?;
    let [sender, recipient, round, signers, ..] = values;
    Ok(EventRead {
        event: Event::Send {
            sender,
            recipient,
            round,
            signers,
        },
        increments: [0; 12],
        next,
    })
}

// Reads an event of a line of so many stations, or the refusal: 1 for a number of stations that no setup has, 21 to 23, or 24
// for an unknown kind.
#[tactic(auto, unfolding(crate::specs::Read::read_event, crate::specs::Read::event_from))]
pub fn read_event(bytes: &[u8], at: usize, stations: u64) -> Result<EventRead, Refusal>
    ensures { form.told_event bytes.now result ≡ form.as_event bytes.now (form.read_event stations bytes.now at) }
{
    if clock::outside(1, clock::MAX_STATIONS, stations) {
        return Err(Refusal::Stations);
    }
    let answer = read_number(bytes, at);
    let Ok((kind, behind)) = answer else {
        return Err(answer.unwrap_err());
    };
    match kind {
        1 => read_advance(bytes, behind, stations as usize),
        2 => read_deliver(bytes, behind),
        3 => read_send(bytes, behind),
        _ => Err(Refusal::Kind),
    }
}
