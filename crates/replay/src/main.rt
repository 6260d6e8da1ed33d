// Plays scripts and single records from standard input, one behind the other, each after its kind (0 for a script, 1 for a
// record) and its length (four bytes, the lowest first).
#![tactic(auto)]

use std::io::{Read, Result};

// How many are played at most.
const PIECES: u64 = 10_000_000;

// Reads the next one into the buffer: its kind and its bytes. One that is cut short or does not fit is the end.
fn next<'a, R: Read>(input: &mut R, buffer: &'a mut [u8]) -> Result<Option<(u8, &'a [u8])>> {
    let mut header = [0u8; 5];
    if paper::read_full(input, &mut header)? < header.len() {
        return Ok(None);
    }
    let [kind, a, b, c, d] = header;
    let count = u32::from_le_bytes([a, b, c, d]) as usize;
    if count > buffer.len() {
        return Ok(None);
    }
    let bytes = &mut buffer[..count];
    if paper::read_full(input, bytes)? < count {
        return Ok(None);
    }
    Ok(Some((kind, bytes)))
}

// Plays one; one of another kind is passed over.
fn play(rt: &impl Print, kind: u8, bytes: &[u8]) -> Result<()> {
    match kind {
        0 => player::rehearse(rt, bytes),
        1 => records::single(rt, bytes),
        _ => Ok(()),
    }
}

fn main(rt: HostRuntime) -> Result<()> {
    let mut input = rt.stdin();
    let mut buffer = [0u8; 65537];
    for _ in 0..PIECES {
        let Some((kind, bytes)) = next(&mut input, &mut buffer)? else {
            return Ok(());
        };
        play(&rt, kind, bytes)?;
    }
    Ok(())
}
