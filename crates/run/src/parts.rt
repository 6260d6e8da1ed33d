// A part of a script, played event by event: the record is checked once, then each event is played and its line written, for
// as long as there are events and room for their lines.
ghost use Rattle.std.specs.Prelude.{◌≡◌, ◌≤◌, ◌-◌, length};
ghost use Rattle.clock.specs.Limits.{max_script};
ghost use Rattle.run.specs.Part as part;
ghost use Rattle.run.specs.Ready as laws;

use clock::MAX_SCRIPT;
use line::Line;
use refusal::Refusal;

// How far a script is played: what stops it, 10 for the record or 21 to 24 where the script can't be read on; the run, the
// place of the next event, the number of the last one played and the place behind its line.
#[derive(Clone, Copy)]
pub struct Part {
    pub stop: Option<Refusal>,
    pub line: Line,
    pub next: usize,
    pub number: u64,
    pub place: usize,
}

// The run in a table with nothing behind its stations.
fn seated(l: Line) -> Line
    requires { l.plan.stations ≤ 12 }
    ensures { result ≡ part.seated l }
{
    let mut stations = [line::no_station(); 12];
    for i in 0..l.plan.stations {
        stations[i as usize] = line::station(l, i);
    }
    Line { stations, ..l }
}

// Whether an event stands at the place, and the buffer has room for its line. A script has no more events than bytes.
fn goes_on(bytes: &[u8], next: usize, number: u64, out: &[u8], place: usize) -> bool
    ensures { result ≡ part.goes_on bytes.now next number out.now place }
{
    (next < bytes.len()) & (number < MAX_SCRIPT) & text::roomy(out, place)
}

// Plays them on a valid record. Beside it are kept the last signed rounds, where messages were last put, and the end of the last
// line.
fn play_on(
    mut line: Line,
    words: &mut [u64],
    bytes: &[u8],
    mut next: usize,
    mut number: u64,
    out: &mut [u8],
    mut place: usize,
    signed: &mut [u64],
    places: &mut [u64],
    end: &mut [u8],
    mut long: usize,
) -> Part
    requires { laws.Ready line words.old signed.old end.old long }
    ensures value { part.as_part result ≡ part.part_of (part.played_from (max_script - number) bytes.now (part.standing 0 line words.old next number out.old place)) }
    ensures words_after { words.new ≡ (part.played_from (max_script - number) bytes.now (part.standing 0 line words.old next number out.old place)).words }
    ensures out_after { out.new ≡ (part.played_from (max_script - number) bytes.now (part.standing 0 line words.old next number out.old place)).out }
{
    let n = line.plan.stations;
    // No `for`: how far it goes the bytes and the room say.
    while goes_on(bytes, next, number, out, place) {
        let read = match script::read_event(bytes, next, n) {
            Ok(read) => read,
            Err(refusal) => {
                return Part {
                    stop: Some(refusal),
                    line,
                    next: bytes.len(),
                    number,
                    place: text::script_line(refusal.number(), out, place),
                };
            }
        };
        next = read.next;
        number += 1;
        let answer = match event::hearer(n, line.plan.faulty, read.event) {
            None => {
                // Copied: lent straight, they keep the whole answer out of registers, which is slower.
                let increments = read.increments;
                match super::pass(line, words, read.event, &increments[..n as usize]) {
                    Ok(after) => {
                        notes::note_places(words, line.count, after.count, places);
                        line = after;
                        super::note_signed(line, signed);
                        long = text::line_end(line, end);
                        0
                    }
                    Err(refusal) => refusal.number(),
                }
            }
            Some(i) => {
                let was = line.stations[i as usize];
                match super::hear(line.rest(), was, signed, words, places, read.event) {
                    Ok(heard) => {
                        line.stations[i as usize] = heard.station;
                        line.count = heard.count;
                        signed[i as usize] = heard.station.signed;
                        if heard.station.round != was.round {
                            long = text::line_end(line, end);
                        }
                        0
                    }
                    Err(refusal) => refusal.number(),
                }
            }
        };
        place = text::event_line(number, answer, &end[..long], out, place);
    }
    Part {
        stop: None,
        line,
        next,
        number,
        place,
    }
}

// Plays the events of a script from a place on and writes their lines into the buffer, as far as it has room. The record is
// checked first: 10, and nothing is played.
pub fn play_part(
    l: Line,
    words: &mut [u64],
    bytes: &[u8],
    at: usize,
    played: u64,
    out: &mut [u8],
    from: usize,
) -> Part
    ensures value { part.as_part result ≡ part.part_of (part.played l words.old bytes.now at played out.old from) }
    ensures words_after { words.new ≡ (part.played l words.old bytes.now at played out.old from).words }
    ensures out_after { out.new ≡ (part.played l words.old bytes.now at played out.old from).out }
{
    if line::bad_line(l, words) {
        return Part {
            stop: Some(Refusal::Record),
            line: l,
            next: at,
            number: played,
            place: from,
        };
    }
    let line = seated(l);
    let mut signed = [0u64; 12];
    super::note_signed(line, &mut signed);
    let mut places = [0u64; 512];
    notes::note_places(words, 0, line.count, &mut places);
    let mut end = [0u8; 320];
    let long = text::line_end(line, &mut end);
    play_on(
        line,
        words,
        bytes,
        at,
        played,
        out,
        from,
        &mut signed,
        &mut places,
        &mut end,
        long,
    )
}
