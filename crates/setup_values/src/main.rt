// Shows what setups on each side of document 01's rules are answered: a line for each, what differs from the base and
// the answer.
#![tactic(auto)]

use refusal::Refusal;
use setup::Plan;
use std::io;

// Document 01's base: n 4, f 1, r 1, T 2,000, D 2,201, A 4,202, P 1,000,000, no faulty.
fn base() -> Plan {
    Plan {
        stations: 4,
        faults: 1,
        drift: 1,
        bound: 2_000,
        spread: 2_201,
        step: 4_202,
        period: 1_000_000,
        faulty: 0,
    }
}

fn line(rt: &impl Print, what: &str, answer: Result<(), Refusal>) -> io::Result<()> {
    println!(rt; "{what}: {}", refusal::answer(&answer))
}

// The base with a change.
fn with<F: Fn(&mut Plan)>(change: F) -> Plan
    requires { F.IsAlwaysCallable change }
{
    let mut plan = base();
    change(&mut plan);
    plan
}

// A plan for four stations, each first reading 4,202.
fn four(plan: Plan) -> Result<(), Refusal> {
    setup::answer(plan, &[4_202; 4])
}

// The rules of the plan, at the values that document 01 gives.
fn rules(rt: &impl Print) -> io::Result<()> {
    line(rt, "base", four(base()))?;
    let narrow = with(|p| p.spread = 2_200);
    line(rt, "D 2200", four(narrow))?;
    let both = Plan {
        step: 4_200,
        ..narrow
    };
    line(rt, "D 2200, A 4200", four(both))?;
    line(rt, "A 4201", four(with(|p| p.step = 4_201)))?;
    line(rt, "P 6203", four(with(|p| p.period = 6_203)))?;
    line(rt, "P 6202", four(with(|p| p.period = 6_202)))?;
    Ok(())
}

// The first readings: one at A + T, one past it, eleven for twelve stations.
fn readings(rt: &impl Print) -> io::Result<()> {
    line(
        rt,
        "first reading 6202",
        setup::answer(base(), &[4_202, 4_202, 4_202, 6_202]),
    )?;
    line(
        rt,
        "first reading 6203",
        setup::answer(base(), &[4_202, 4_202, 4_202, 6_203]),
    )?;
    let twelve = with(|p| p.stations = 12);
    line(rt, "n 12", setup::answer(twelve, &[4_202; 12]))?;
    line(
        rt,
        "n 12, eleven readings",
        setup::answer(twelve, &[4_202; 11]),
    )?;
    line(
        rt,
        "n 12, thirteen readings",
        setup::answer(twelve, &[4_202; 13]),
    )?;
    line(rt, "no readings", setup::answer(base(), &[4_202; 0]))?;
    let faulty = with(|p| p.faulty = 8);
    line(
        rt,
        "station 3 faulty, reading 0",
        setup::answer(faulty, &[4_202, 4_202, 4_202, 0]),
    )?;
    line(
        rt,
        "station 3 faulty, reading 4202",
        setup::answer(faulty, &[4_202; 4]),
    )?;
    Ok(())
}

// Stations, tolerated faults and faulty marks.
fn stations(rt: &impl Print) -> io::Result<()> {
    let none = with(|p| p.stations = 0);
    line(rt, "n 0", setup::answer(none, &[4_202; 0]))?;
    let many = with(|p| p.stations = 13);
    line(rt, "n 13", setup::answer(many, &[4_202; 13]))?;
    let two = with(|p| p.stations = 2);
    line(rt, "n 2, f 1", setup::answer(two, &[4_202; 2]))?;
    let alone = Plan {
        stations: 1,
        faults: 0,
        ..base()
    };
    line(rt, "n 1, f 0", setup::answer(alone, &[4_202; 1]))?;
    line(rt, "f 2^63", four(with(|p| p.faults = 1 << 63)))?;
    line(rt, "f 2^64 - 1", four(with(|p| p.faults = u64::MAX)))?;
    line(rt, "mark 63", four(with(|p| p.faulty = 1 << 63)))?;
    line(rt, "mark 4", four(with(|p| p.faulty = 16)))?;
    line(rt, "marks 0 and 1", four(with(|p| p.faulty = 3)))?;
    Ok(())
}

// Just past each limit.
fn past(rt: &impl Print) -> io::Result<()> {
    line(rt, "r 101", four(with(|p| p.drift = 101)))?;
    line(rt, "T 0", four(with(|p| p.bound = 0)))?;
    line(rt, "T 1000001", four(with(|p| p.bound = 1_000_001)))?;
    line(rt, "D 0", four(with(|p| p.spread = 0)))?;
    line(rt, "D 1000001", four(with(|p| p.spread = 1_000_001)))?;
    line(rt, "A 0", four(with(|p| p.step = 0)))?;
    line(rt, "A 10000001", four(with(|p| p.step = 10_000_001)))?;
    line(rt, "P 0", four(with(|p| p.period = 0)))?;
    line(rt, "P 100000001", four(with(|p| p.period = 100_000_001)))?;
    Ok(())
}

// At the limits: the largest numbers, the smallest that pass, and one less.
fn limits(rt: &impl Print) -> io::Result<()> {
    let largest = Plan {
        drift: 0,
        bound: 1_000_000,
        spread: 1_000_000,
        step: 10_000_000,
        period: 100_000_000,
        ..base()
    };
    line(
        rt,
        "r 0, T, D, A, P largest",
        setup::answer(largest, &[11_000_000; 4]),
    )?;
    let drifting = Plan {
        drift: 100,
        ..largest
    };
    line(
        rt,
        "r, T, D, A, P largest",
        setup::answer(drifting, &[11_000_000; 4]),
    )?;
    let least = Plan {
        drift: 0,
        bound: 1,
        spread: 1,
        step: 2,
        period: 4,
        ..base()
    };
    line(rt, "r 0, T 1, D 1, A 2, P 4", setup::answer(least, &[3; 4]))?;
    let sooner = Plan { period: 3, ..least };
    line(
        rt,
        "r 0, T 1, D 1, A 2, P 3",
        setup::answer(sooner, &[3; 4]),
    )?;
    let shorter = Plan { step: 1, ..sooner };
    line(
        rt,
        "r 0, T 1, D 1, A 1, P 3",
        setup::answer(shorter, &[2; 4]),
    )?;
    Ok(())
}

fn main(rt: HostRuntime) -> io::Result<()> {
    rules(&rt)?;
    readings(&rt)?;
    stations(&rt)?;
    past(&rt)?;
    limits(&rt)?;
    Ok(())
}
