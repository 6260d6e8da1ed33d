// Shows how numbers are written and read back, what spoilt numbers and unknown kinds are answered, and what every cut of
// document 01's rehearsal script gives.
#![tactic(auto)]

use refusal::Refusal;
use std::io;

// Document 01's rehearsal script: a setup of 11 bytes and eight events of 5.
const REHEARSAL: [u8; 51] = [
    3, 1, 0, 2, 2, 4, 7, 4, 4, 5, 0, 1, 2, 2, 2, 0, 1, 3, 3, 3, 0, 3, 2, 0, 1, 1, 3, 2, 1, 1, 4, 2,
    1, 0, 1, 1, 1, 3, 3, 3, 0, 2, 1, 0, 1, 0, 1, 1, 1, 1, 0,
];

// What reading the first number of the bytes answers.
fn show_read(rt: &impl Print, bytes: &[u8]) -> io::Result<()> {
    match number::read_number(bytes, 0) {
        Ok((v, next)) => print!(rt; "{v} in {next}\n"),
        Err(refusal) => print!(rt; "refused {refusal}\n"),
    }
}

// A number written, the buffer then, and what it reads as.
fn there_and_back(rt: &impl Print, v: u64) -> io::Result<()> {
    let mut buffer = [0xEE; 12];
    if writer::write_number(v, &mut buffer, 0).is_err() {
        return print!(rt; "not written\n");
    }
    for byte in buffer {
        print!(rt; "{byte:02x} ")?;
    }
    print!(rt; "= ")?;
    show_read(rt, &buffer)
}

fn numbers(rt: &impl Print) -> io::Result<()> {
    there_and_back(rt, 0)?;
    there_and_back(rt, 127)?;
    there_and_back(rt, 128)?;
    there_and_back(rt, 16_384)?;
    there_and_back(rt, u64::MAX)?;
    show_read(
        rt,
        &[0xFF, 0xFF, 0xFF, 0xFF, 0xFF, 0xFF, 0xFF, 0xFF, 0xFF, 0x02],
    )?;
    show_read(
        rt,
        &[0x80, 0x80, 0x80, 0x80, 0x80, 0x80, 0x80, 0x80, 0x80, 0x00],
    )?;
    show_read(rt, &[0x80, 0x00])?;
    show_read(rt, &[0x80])?;
    show_read(rt, &[])
}

// What writing 128 at a place of a buffer of three bytes answers.
fn show_room(rt: &impl Print, at: usize) -> io::Result<()> {
    let mut buffer = [0; 3];
    match writer::write_number(128, &mut buffer, at) {
        Ok(n) => print!(rt; "written {n}\n"),
        Err(refusal) => print!(rt; "refused {refusal}\n"),
    }
}

// What reading an event of three stations answers.
fn show_event(rt: &impl Print, bytes: &[u8], at: usize) -> io::Result<()> {
    match script::read_event(bytes, at, 3) {
        Ok(read) => print!(rt; "0 {}\n", read.next),
        Err(refusal) => print!(rt; "{refusal} {}\n", bytes.len()),
    }
}

fn kinds(rt: &impl Print) -> io::Result<()> {
    show_event(rt, &[0x00], 0)?;
    show_event(rt, &[0x04], 0)?;
    show_event(
        rt,
        &[0xFF, 0xFF, 0xFF, 0xFF, 0xFF, 0xFF, 0xFF, 0xFF, 0xFF, 0x01],
        0,
    )?;
    show_event(rt, &[0x02, 0x01, 0x00, 0x01, 0x00], 0)?;
    show_event(rt, &[0x02, 0x01, 0x00, 0x01], 0)?;
    show_event(rt, &[0x02], 9)
}

// How many events of a line are read whole from a place on, and what stops the reading.
fn counted(bytes: &[u8], from: usize, stations: u64) -> (usize, Result<(), Refusal>) {
    let mut at = from;
    for whole in 0..bytes.len() {
        if bytes.len() <= at {
            return (whole, Ok(()));
        }
        match script::read_event(bytes, at, stations) {
            Ok(read) => at = read.next,
            Err(refusal) => return (whole, Err(refusal)),
        }
    }
    (bytes.len(), Ok(()))
}

// The first bytes of the rehearsal: the setup's answer, how many events are whole, and what stops the reading.
fn show_cut(rt: &impl Print, bytes: &[u8]) -> io::Result<()> {
    match script::read_setup(bytes, 0) {
        Ok(read) => {
            let (whole, stop) = counted(bytes, read.next, read.plan.stations);
            print!(rt; "{}: 0 {whole} {}\n", bytes.len(), refusal::answer(&stop))
        }
        Err(refusal) => print!(rt; "{}: {refusal} 0 0\n", bytes.len()),
    }
}

fn cuts(rt: &impl Print) -> io::Result<()> {
    for k in 0..=REHEARSAL.len() {
        show_cut(rt, &REHEARSAL[..k])?;
    }
    Ok(())
}

fn main(rt: HostRuntime) -> io::Result<()> {
    numbers(&rt)?;
    show_room(&rt, 0)?;
    show_room(&rt, 1)?;
    show_room(&rt, 2)?;
    show_room(&rt, 3)?;
    show_room(&rt, usize::MAX)?;
    kinds(&rt)?;
    cuts(&rt)
}
