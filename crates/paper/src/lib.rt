// What is read from standard input, and what is printed on standard output: bytes that others made; and an answer on a record,
// with the record. A read or a write that fails is passed on.
#![tactic(auto)]

ghost use Rattle.std.specs.Prelude.{◌<◌, ◌≤◌, length, take, IfOk, Some};
ghost use Rattle.paper.specs.Paper as paper;
ghost use Rattle.std.specs.Io.KnownBytes.{Consumes, IsAtEnd};

use clock::{Moment, Reading};
use flight::Message;
use station::Station;
use std::fmt;
use std::io::{Read, Result, Write};

// Reads until the buffer is full or the input ends, and answers how many bytes it put at the buffer's start: the next ones of the
// input, in order. Fewer than the buffer holds are all that were left.
pub fn read_full<R: Read>(input: &mut R, buffer: &mut [u8]) -> Result<usize>
    ensures bound { IfOk result (λ n. n ≤ length buffer.new) }
    ensures bytes { IfOk result (λ n. Consumes (R.remaining input.old) (R.remaining input.new) (take n buffer.new)) }
    ensures whole { IfOk result (λ n. n < length buffer.new → IsAtEnd (R.remaining input.new)) }
{
    let mut done = 0;
    // No `for`: a read says itself how far it came.
    while done < buffer.len() {
        let got = input.read(&mut buffer[done..])?;
        if got == 0 {
            return Ok(done);
        }
        done += got;
    }
    Ok(done)
}

// Prints the first `count` bytes. No slice of them: a part of `run` has the buffer and a place in it.
pub fn print(rt: &impl Print, out: &[u8], count: usize) -> Result<()> {
    if count <= out.len() {
        std::io::writer(rt).write_all(&out[..count])?;
    }
    Ok(())
}

// ---- a page

// What is to be printed, gathered into large pieces: the first `place` bytes wait.
#[derive(Drop)]
struct Page<'a, P: Print> {
    rt: &'a P,
    out: [u8; 65536],
    place: usize,
    ghost inside: { place ≤ 65536 },
}

impl<P: Print> Write for Page<'_, P> {
    // As many of the bytes as there is room for; a full page is printed first.
    fn write(&mut self, bytes: &[u8]) -> Result<usize> {
        if self.place == self.out.len() {
            self.flush()?;
        }
        let end = self.out.len().min(self.place + bytes.len());
        let count = end - self.place;
        let _ = writer::write_bytes(&bytes[..count], &mut self.out, self.place);
        self.place = end;
        Ok(count)
    }

    fn flush(&mut self) -> Result<()> {
        print(self.rt, &self.out, self.place)?;
        self.place = 0;
        Ok(())
    }
}

impl<P: Print> Page<'_, P> {
    // What waits is printed where little room is left: what is printed at once then ends with a row.
    fn make_room(&mut self) -> Result<()> {
        if self.place > 60_000 {
            self.flush()?;
        }
        Ok(())
    }
}

// ---- an answer

// What is answered to an event or a question, with the values of a question: refused, they are printed too, as zeros.
#[derive(Clone, Copy)]
pub struct Told {
    pub answer: u64,
    pub values: Values,
}

// An event has none.
#[derive(Clone, Copy)]
pub enum Values {
    Event,
    Reading { reading: Reading, round: u64 },
    Lead(i64),
    InFlight(u64),
}

// A line for a question, and nothing for an event.
impl fmt::Display for Values {
    ghost output = { λ v. Some (paper.values_text v) };

    fn fmt<W: fmt::Write>(&self, f: &mut fmt::Formatter<W>) -> fmt::Result {
        match self {
            Values::Event => Ok(()),
            Values::Reading { reading, round } => writeln!(
                f,
                "reading {} round {round}",
                reading.0
            ),
            Values::Lead(lead) => {
                let sign = if *lead < 0 { "-" } else { "" };
                writeln!(f, "lead {sign}{}", clock::magnitude(*lead))
            }
            Values::InFlight(count) => writeln!(f, "flight {count}"),
        }
    }
}

// Bytes behind those of a row; none where there is no room.
fn add(bytes: &[u8], text: &mut [u8], place: usize) -> usize {
    place.saturating_add(writer::write_bytes(bytes, text, place).unwrap_or(0))
}

// A space and a number.
fn add_number(x: u64, text: &mut [u8], place: usize) -> usize {
    let mut digits = [0u8; 20];
    let count = io::decimal(x, &mut digits);
    let behind = add(b" ", text, place);
    add(&digits[..count], text, behind)
}

// A word and a row of up to eight numbers, each behind a space. They are laid by themselves and handed on at once: by `write!` a row
// takes twice the time.
fn write_row<W: Write>(page: &mut W, word: &[u8], row: &[u64]) -> Result<()> {
    let mut text = [0u8; 192];
    let mut place = add(word, &mut text, 0);
    for x in row {
        place = add_number(*x, &mut text, place);
    }
    place = add(b"\n", &mut text, place);
    page.write_all(&text[..place.min(192)])
}

// Prints the answer, its values, the time, each station and each message in flight.
pub fn show(
    rt: &impl Print,
    told: Told,
    time: Moment,
    stations: &[Station],
    messages: &[Message],
) -> Result<()> {
    let mut page = Page {
        rt,
        out: io::large_buffer(),
        place: 0,
    };
    write!(
        page,
        "answer {}\n{}time {}\n",
        told.answer, told.values, time.0
    )?;
    for s in stations {
        page.make_room()?;
        write_row(
            &mut page,
            b"station",
            &[s.round, s.reading.0, s.signed, s.gathered],
        )?;
    }
    for m in messages {
        page.make_room()?;
        write_row(
            &mut page,
            b"message",
            &[m.sender, m.recipient, m.round, m.kind, m.signers, m.sent.0],
        )?;
    }
    page.flush()
}

// Prints what stops the reading.
pub fn show_stop(rt: &impl Print, stop: u64) -> Result<()> {
    println!(rt; "script {stop}")
}
