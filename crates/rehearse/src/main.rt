// Plays a script from standard input.
#![tactic(auto)]

use std::io::Result;

fn main(rt: HostRuntime) -> Result<()> {
    let mut script = [0u8; 65537];
    let got = paper::read_full(&mut rt.stdin(), &mut script)?;
    player::rehearse(&rt, &script[..got])
}
