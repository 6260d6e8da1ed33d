// Shows what a reader answers, where it then stands and what is left: on document 01's rehearsal script and on refused
// ones.
#![tactic(auto)]

use std::io::Result;

// Document 01's rehearsal script: a setup of 11 bytes and eight events of 5.
const REHEARSAL: [u8; 51] = [
    3, 1, 0, 2, 2, 4, 7, 4, 4, 5, 0, 1, 2, 2, 2, 0, 1, 3, 3, 3, 0, 3, 2, 0, 1, 1, 3, 2, 1, 1, 4, 2,
    1, 0, 1, 1, 1, 3, 3, 3, 0, 2, 1, 0, 1, 0, 1, 1, 1, 1, 0,
];

// The answer to reading an event at a place, the place then, which after a refusal is where the rest begins, and the rest. Answers
// that place.
fn show_event(rt: &impl Print, bytes: &[u8], at: usize, stations: u64) -> Result<usize> {
    let read = reader::event_at(bytes, at, stations);
    let rest = reader::rest_behind(bytes, at, stations);
    let next = read.map_or(bytes.len().saturating_sub(rest.len()), |event| event.next);
    print!(rt; "{} {next}:", refusal::answer(&read))?;
    for byte in rest {
        print!(rt; " {byte:02x}")?;
    }
    print!(rt; "\n")?;
    Ok(next)
}

// The eight events of the rehearsal, one after the other, and what a ninth is answered.
fn rehearsal(rt: &impl Print) -> Result<()> {
    let mut at = 11;
    for _ in 0..9 {
        at = show_event(rt, &REHEARSAL, at, 3)?;
    }
    Ok(())
}

fn refused(rt: &impl Print) -> Result<()> {
    show_event(rt, &[0x80, 0x00], 0, 3)?;
    show_event(rt, &[0x80], 0, 3)?;
    show_event(
        rt,
        &[0xFF, 0xFF, 0xFF, 0xFF, 0xFF, 0xFF, 0xFF, 0xFF, 0xFF, 0x02],
        0,
        3,
    )?;
    show_event(rt, &[0x04, 0x02, 0x01, 0x00, 0x01, 0x00], 0, 3)?;
    show_event(rt, &[0x02, 0x01, 0x00, 0x80, 0x00, 0x00], 0, 3)?;
    show_event(rt, &[0x02, 0x01, 0x00, 0x01], 0, 3)?;
    show_event(rt, &[0x02, 0x01, 0x00, 0x01, 0x00], 9, 3)?;
    show_event(rt, &[0x02, 0x01, 0x00, 0x01, 0x00], 0, 13)?;
    Ok(())
}

// Behind an event that is read to its end the rest is what stands there.
fn whole(rt: &impl Print) -> Result<()> {
    show_event(rt, &[0x02, 0x01, 0x00, 0x80, 0x01, 0x00, 0x07, 0x09], 0, 3)?;
    Ok(())
}

fn main(rt: HostRuntime) -> Result<()> {
    rehearsal(&rt)?;
    refused(&rt)?;
    whole(&rt)
}
