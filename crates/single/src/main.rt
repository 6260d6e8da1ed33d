// Plays one event, or asks one question, on a record that is read from standard input.
#![tactic(auto)]

use std::io::Result;

fn main(rt: HostRuntime) -> Result<()> {
    let mut record = [0u8; 65537];
    let got = paper::read_full(&mut rt.stdin(), &mut record)?;
    records::single(&rt, &record[..got])
}
