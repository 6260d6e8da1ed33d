// What writes into a lent buffer: bytes as they are, numbers in groups of seven bits, and the setups and events of a script.
// Refused, nothing is written.
#![tactic(auto)]

ghost use Rattle.std.specs.Prelude.{◌≡◌, ◌≤◌, ◌+◌, ◌++◌, length};
ghost use Rattle.refusal.specs.Refusal as given;
ghost use Rattle.setup.specs.Setup.{setup_answer};
ghost use Rattle.number.specs.Number as number;
ghost use Rattle.script.specs.Write as script;
ghost use Rattle.writer.specs.Write as writer;

use event::Event;
use refusal::Refusal;
use setup::Plan;

// ---- bytes and numbers

// Bytes laid at a place that has room for them.
fn copy(bytes: &[u8], out: &mut [u8], at: usize)
    requires { at + length bytes.now ≤ length out.old }
    ensures { out.new ≡ number.laid out.old at bytes.now }
{
    // Tried by `copy_from_slice`: for the few bytes of a line's end it is slower.
    for i in 0..bytes.len() {
        out[at + i] = bytes[i];
    }
}

// Writes bytes as they are at a place of the buffer: how many, or 25 where it is too short and nothing is written.
pub fn write_bytes(bytes: &[u8], out: &mut [u8], at: usize) -> Result<usize, Refusal>
    ensures value { writer.as_written result ≡ writer.wrote out.old at bytes.now }
    ensures out_after { out.new ≡ writer.buffer out.old at bytes.now }
{
    let space = out.len();
    let count = bytes.len();
    if space < at {
        return Err(Refusal::Short);
    }
    if space - at < count {
        return Err(Refusal::Short);
    }
    copy(bytes, out, at);
    Ok(count)
}

// How many bytes a number takes: one for each seven bits, and one for 0.
fn size(v: u64) -> usize
    ensures { result ≡ length (number.number_bytes v) }
{
    v.max(1).ilog2() as usize / 7 + 1
}

// Writes a number at a place that has room for it, and answers the place behind it. The loop stays a `while`: the rest says
// when the last group comes, and a `for` would have to count them first.
fn put_number(v: u64, out: &mut [u8], at: usize) -> usize
    requires { at + length (number.number_bytes v) ≤ length out.old }
    ensures value { result ≡ at + length (number.number_bytes v) }
    ensures out_after { out.new ≡ number.laid out.old at (number.number_bytes v) }
{
    let mut place = at;
    let mut rest = v;
    while rest >= 128 {
        out[place] = (128 + rest % 128) as u8;
        rest /= 128;
        place += 1;
    }
    out[place] = rest as u8;
    place + 1
}

// How many bytes the numbers take.
#[tactic(auto, unfolding(number::specs::Number::bytes_of))]
fn width(numbers: &[u64]) -> usize
    ensures { result ≡ length (number.bytes_of numbers.now) }
{
    let mut sum = 0;
    for &v in numbers {
        sum += size(v);
    }
    sum
}

// Writes the numbers from a place on that has room for them, and answers the place behind them.
fn put_numbers(numbers: &[u64], out: &mut [u8], at: usize) -> usize
    requires { at + length (number.bytes_of numbers.now) ≤ length out.old }
    ensures value { result ≡ at + length (number.bytes_of numbers.now) }
    ensures out_after { out.new ≡ number.laid out.old at (number.bytes_of numbers.now) }
{
    let mut place = at;
    for &v in numbers {
        place = put_number(v, out, place);
    }
    place
}

// Writes the numbers of two rows, one behind the other, at a place of the buffer: how many bytes, or 25 where it is too
// short and nothing is written.
pub fn write_numbers(
    head: &[u64],
    tail: &[u64],
    out: &mut [u8],
    at: usize,
) -> Result<usize, Refusal>
    ensures value { writer.as_written result ≡ writer.wrote out.old at (number.bytes_of (head.now ++ tail.now)) }
    ensures out_after { out.new ≡ writer.buffer out.old at (number.bytes_of (head.now ++ tail.now)) }
{
    let space = out.len();
    if space < at {
        return Err(Refusal::Short);
    }
    let first = width(head);
    if space - at < first {
        return Err(Refusal::Short);
    }
    let second = width(tail);
    if space - at - first < second {
        return Err(Refusal::Short);
    }
    let next = put_numbers(head, out, at);
    put_numbers(tail, out, next);
    Ok(first + second)
}

// Writes a number at a place of the buffer: how many bytes, or 25 where it is too short and nothing is written.
pub fn write_number(v: u64, out: &mut [u8], at: usize) -> Result<usize, Refusal>
    ensures value { writer.as_written result ≡ writer.wrote out.old at (number.number_bytes v) }
    ensures out_after { out.new ≡ writer.buffer out.old at (number.number_bytes v) }
{
    write_numbers(&[v], &[], out, at)
}

// ---- setups and events

// Writes a setup at a place of the buffer: how many bytes; else 1 to 8 where it does not pass, then 25 where the buffer is
// too short.
pub fn write_setup(plan: Plan, first: &[u64], out: &mut [u8], at: usize) -> Result<usize, Refusal>
    ensures value { writer.as_written result ≡ writer.writes (setup_answer plan first.now) out.old at (script.setup_numbers plan first.now) }
    ensures out_after { out.new ≡ writer.leaves (setup_answer plan first.now) out.old at (script.setup_numbers plan first.now) }
{
    setup::answer(plan, first)?;
    let head = [
        plan.stations,
        plan.faults,
        plan.drift,
        plan.bound,
        plan.spread,
        plan.step,
        plan.period,
        plan.faulty,
    ];
    write_numbers(&head, first, out, at)
}

// What refuses an event of a line: 1 to 7 where its plan does not pass, then 11 where it is barred.
#[tactic(auto, unfolding(crate::specs::Write::event_answer))]
fn event_answer(plan: Plan, event: Event, increments: &[u64]) -> Result<(), Refusal>
    ensures { given.answer result ≡ writer.event_answer plan event increments.now }
{
    setup::plan_answer(plan)?;
    if event::barred(plan.stations, plan.faulty, event, increments) {
        return Err(Refusal::Barred);
    }
    Ok(())
}

// Writes an event of a line at a place of the buffer: how many bytes; else 1 to 7 where the line's plan does not pass, 11
// where the event is barred, then 25 where the buffer is too short.
pub fn write_event(
    plan: Plan,
    event: Event,
    increments: &[u64],
    out: &mut [u8],
    at: usize,
) -> Result<usize, Refusal>
    ensures value { writer.as_written result ≡ writer.writes (writer.event_answer plan event increments.now) out.old at (script.event_numbers event increments.now) }
    ensures out_after { out.new ≡ writer.leaves (writer.event_answer plan event increments.now) out.old at (script.event_numbers event increments.now) }
{
    event_answer(plan, event, increments)?;
    match event {
        Event::Advance(d) => {
            let head = [1, d];
            write_numbers(&head, increments, out, at)
        }
        Event::Deliver {
            sender,
            recipient,
            round,
            kind,
        } => {
            let head = [2, sender, recipient, round, kind];
            write_numbers(&head, &increments[..0], out, at)
        }
        Event::Send {
            sender,
            recipient,
            round,
            signers,
        } => {
            let head = [3, sender, recipient, round, signers];
            write_numbers(&head, &increments[..0], out, at)
        }
    }
}
