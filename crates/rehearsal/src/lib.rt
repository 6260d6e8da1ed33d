// Opens a script: its setup is read and answered, and the first line written. What `rehearse` prints of a whole script, and the
// proof that it is what `open` and the parts of `run` write, are in `specs/`.
#![tactic(auto)]

ghost use Rattle.std.specs.Prelude.{◌≡◌};
ghost use Rattle.refusal.specs.Refusal as given;
ghost use Rattle.run.specs.Part as part;
ghost use Rattle.rehearsal.specs.Opening as begin;

use clock::MAX_SCRIPT;
use line::Line;
use refusal::Refusal;
use run::Part;

// No run: what ends the reading, and the line that says so.
fn ended(refusal: Refusal, next: usize, place: usize) -> Part
    ensures { part.as_part result ≡ begin.ended (given.number refusal) next place }
{
    Part {
        stop: Some(refusal),
        line: Line::default(),
        next,
        number: 0,
        place,
    }
}

// A setup that can't be read: 1 is its answer, and 21 to 23 the script's.
fn unread(refusal: Refusal, end: usize, out: &mut [u8]) -> Part
    ensures value { part.as_part result ≡ begin.open_part (begin.stopped (given.number refusal) end) out.old }
    ensures out_after { out.new ≡ begin.open_out (begin.stopped (given.number refusal) end) out.old }
{
    let place = match refusal {
        Refusal::Stations => text::setup_line(refusal.number(), out, 0),
        _ => text::script_line(refusal.number(), out, 0),
    };
    ended(refusal, end, place)
}

// Opens a script: its setup is read and answered, and the first line written. A refused one ends it, and so does a script
// that can't be read or is too long.
pub fn open(bytes: &[u8], out: &mut [u8]) -> Part
    ensures value { part.as_part result ≡ begin.open_part (begin.opening bytes.now) out.old }
    ensures out_after { out.new ≡ begin.open_out (begin.opening bytes.now) out.old }
{
    if bytes.len() as u64 > MAX_SCRIPT {
        let place = text::script_line(Refusal::Long.number(), out, 0);
        return ended(Refusal::Long, bytes.len(), place);
    }
    let read = match script::read_setup(bytes, 0) {
        Ok(read) => read,
        Err(refusal) => return unread(refusal, bytes.len(), out),
    };
    let first = read.first;
    match line::fresh(read.plan, &first[..read.plan.stations as usize]) {
        Ok(line) => Part {
            stop: None,
            line,
            next: read.next,
            number: 0,
            place: text::setup_line(0, out, 0),
        },
        Err(refusal) => {
            let place = text::setup_line(refusal.number(), out, 0);
            ended(refusal, read.next, place)
        }
    }
}
