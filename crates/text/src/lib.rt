// The lines of a rehearsal as bytes, laid into a lent buffer. Each function answers the place behind what it wrote; where the
// buffer has no room for the longest line, nothing is written and the place is as it was. Buffer and place are no struct: the
// statements of `run` and `rehearsal` are on the two.
#![tactic(auto)]

ghost use Rattle.std.specs.Prelude.{◌≡◌, ◌+◌, ◌<◌, ◌≤◌, length, []};
ghost use Rattle.clock.specs.Pick.{pick};
ghost use Rattle.number.specs.Number.{laid};
ghost use Rattle.line.specs.Held.{run_of};
ghost use Rattle.text.specs.Text as text;
ghost use Rattle.text.specs.Text.{shown_round};

use line::Line;

// Room for the longest line.
pub const LONGEST: usize = 320;

// How many decimal digits a number has: 0 has one, as 1 has.
fn places(x: u64) -> usize
    ensures { result ≡ text.places x }
{
    x.max(1).ilog10() as usize + 1
}

// One byte.
fn put_byte(byte: u8, out: &mut [u8], at: usize) -> usize
    requires { at + 1 ≤ length out.old }
    ensures value { result ≡ at + 1 }
    ensures out_after { out.new ≡ laid out.old at (text.single byte) }
{
    out[at] = byte;
    at + 1
}

// Two digits of a number below 100, a zero in front too.
fn put_two(x: u64, out: &mut [u8], at: usize) -> usize
    requires { (x < 100) × (at + 2 ≤ length out.old) }
    ensures value { result ≡ at + 2 }
    ensures out_after { out.new ≡ laid out.old at (text.last_digits 2 x) }
{
    let next = put_byte(b'0' + (x / 10) as u8, out, at);
    put_byte(b'0' + (x % 10) as u8, out, next)
}

// A number of any length in decimal, the last digit first.
fn put_long(x: u64, out: &mut [u8], at: usize) -> usize
    requires { at + 20 ≤ length out.old }
    ensures value { result ≡ at + text.places x }
    ensures out_after { out.new ≡ laid out.old at (text.decimal x) }
{
    let count = places(x);
    let mut rest = x;
    for i in (0..count).rev() {
        out[at + i] = b'0' + (rest % 10) as u8;
        rest /= 10;
    }
    at + count
}

// A number in decimal. One, two and four digits, the usual ones, are laid without a loop.
fn put_decimal(x: u64, out: &mut [u8], at: usize) -> usize
    requires { at + 20 ≤ length out.old }
    ensures value { result ≡ at + text.places x }
    ensures out_after { out.new ≡ laid out.old at (text.decimal x) }
{
    if x < 10 {
        out[at] = b'0' + x as u8;
        return at + 1;
    }
    if x < 100 {
        return put_two(x, out, at);
    }
    if x < 1000 {
        return put_long(x, out, at);
    }
    if x < 10000 {
        let next = put_two(x / 100, out, at);
        return put_two(x % 100, out, next);
    }
    put_long(x, out, at)
}

// A space and a number.
fn put_spaced(x: u64, out: &mut [u8], at: usize) -> usize
    requires { at + 21 ≤ length out.old }
    ensures value { result ≡ at + (text.places x + 1) }
    ensures out_after { out.new ≡ laid out.old at (text.spaced x) }
{
    let next = put_byte(b' ', out, at);
    put_decimal(x, out, next)
}

// A space and the round of station i, `-` if it is faulty.
fn put_round(faulty: u64, i: u64, round: u64, out: &mut [u8], at: usize) -> usize
    requires { at + 21 ≤ length out.old }
    ensures value { result ≡ at + length (shown_round faulty i round) }
    ensures out_after { out.new ≡ laid out.old at (shown_round faulty i round) }
{
    if mask::has(faulty, i) {
        let next = put_byte(b' ', out, at);
        return put_byte(b'-', out, next);
    }
    put_spaced(round, out, at)
}

// Of each station.
fn put_rounds(l: Line, out: &mut [u8], at: usize) -> usize
    requires stations_bound { l.plan.stations ≤ 12 }
    requires at_in_bounds { at + 252 ≤ length out.old }
    ensures value { result ≡ at + length (text.rounds_to (run_of l []) l.plan.stations) }
    ensures out_after { out.new ≡ laid out.old at (text.rounds_to (run_of l []) l.plan.stations) }
{
    let mut next = at;
    for i in 0..l.plan.stations {
        next = put_round(l.plan.faulty, i, l.stations[i as usize].round, out, next);
    }
    next
}

// The bytes of a word.
fn put_word(word: &[u8], out: &mut [u8], at: usize) -> usize
    requires { at + length word.now ≤ length out.old }
    ensures value { result ≡ at + length word.now }
    ensures out_after { out.new ≡ laid out.old at word.now }
{
    let _ = writer::write_bytes(word, out, at);
    at + word.len()
}

// Whether the buffer has room for the longest line from a place on.
pub fn roomy(out: &[u8], at: usize) -> bool
    ensures { result ≡ text.roomy out.now at }
{
    out.len() >= LONGEST && at <= out.len() - LONGEST
}

// The end of an event's line: real time and the round of each station. Nothing for a line of more than twelve stations.
pub fn line_end(l: Line, out: &mut [u8]) -> usize
    ensures value { result ≡ text.behind (text.fits l out.old 0) 0 (text.event_end (run_of l [])) }
    ensures out_after { out.new ≡ text.printed (text.fits l out.old 0) out.old 0 (text.event_end (run_of l [])) }
{
    if l.plan.stations > 12 {
        return 0;
    }
    if !roomy(out, 0) {
        return 0;
    }
    let mut next = put_spaced(l.time.0, out, 0);
    next = put_rounds(l, out, next);
    put_byte(b'\n', out, next)
}

// An event's line: its number and answer, and the end that is lent. Nothing where the end is longer than any.
pub fn event_line(number: u64, answer: u64, end: &[u8], out: &mut [u8], at: usize) -> usize
    ensures value { result ≡ text.behind (text.fits_end end.now out.old at) at (text.line_with number answer end.now) }
    ensures out_after { out.new
        ≡ text.printed (text.fits_end end.now out.old at) out.old at (text.line_with number answer end.now) }
{
    if end.len() > 278 {
        return at;
    }
    if !roomy(out, at) {
        return at;
    }
    let mut next = put_decimal(number, out, at);
    next = put_spaced(answer, out, next);
    put_word(end, out, next)
}

// A short word and a number.
fn told_line(word: &[u8], number: u64, out: &mut [u8], at: usize) -> usize
    requires { length word.now ≤ 6 }
    ensures value { result ≡ text.behind (text.roomy out.old at) at (text.told word.now number) }
    ensures out_after { out.new ≡ text.printed (text.roomy out.old at) out.old at (text.told word.now number) }
{
    if !roomy(out, at) {
        return at;
    }
    let mut next = put_word(word, out, at);
    next = put_spaced(number, out, next);
    put_byte(b'\n', out, next)
}

// `setup` and its answer.
#[tactic(auto, unfolding(crate::specs::Text::setup_line))]
pub fn setup_line(answer: u64, out: &mut [u8], at: usize) -> usize
    ensures value { result ≡ text.behind (text.roomy out.old at) at (text.setup_line answer) }
    ensures out_after { out.new ≡ text.printed (text.roomy out.old at) out.old at (text.setup_line answer) }
{
    told_line(b"setup", answer, out, at)
}

// `script` and the number.
#[tactic(auto, unfolding(crate::specs::Text::script_line))]
pub fn script_line(number: u64, out: &mut [u8], at: usize) -> usize
    ensures value { result ≡ text.behind (text.roomy out.old at) at (text.script_line number) }
    ensures out_after { out.new ≡ text.printed (text.roomy out.old at) out.old at (text.script_line number) }
{
    told_line(b"script", number, out, at)
}
