// Plays a script and prints what each station does on standard output: the setup's answer, then a line for each event. What is
// printed is made in `rehearsal` and `run`; here it is handed on in large pieces.
#![tactic(auto)]

use run::Part;
use std::io::Result;

// Plays an opened script part by part and prints each. A part holds one event at least, so there are no more than bytes.
fn play(
    rt: &impl Print,
    bytes: &[u8],
    opened: Part,
    words: &mut [u64],
    out: &mut [u8],
) -> Result<()> {
    let mut part = opened;
    for _ in 0..clock::MAX_SCRIPT {
        part = run::play_part(
            part.line,
            words,
            bytes,
            part.next,
            part.number,
            out,
            part.place,
        );
        paper::print(rt, out, part.place)?;
        part.place = 0;
        if part.stop.is_some() || part.next >= bytes.len() {
            return Ok(());
        }
    }
    Ok(())
}

// Opens the script and plays it, where its setup is accepted.
pub fn rehearse(rt: &impl Print, bytes: &[u8]) -> Result<()> {
    let mut words = [0u64; 3072];
    let mut out = io::large_buffer();
    let opened = rehearsal::open(bytes, &mut out);
    if opened.stop.is_some() {
        return paper::print(rt, &out, opened.place);
    }
    play(rt, bytes, opened, &mut words, &mut out)
}
