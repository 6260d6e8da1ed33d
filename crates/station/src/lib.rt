// The rules of one station, by value: what it does when its clock lands on a mark, when it hears signatures, and when it
// holds f + 1 of them. A board on the floor calls `hear` and `advance`; both check its own record first.
#![tactic(auto)]

ghost use Rattle.std.specs.Prelude.{◌≡◌, ◌||◌};
ghost use Rattle.clock.specs.Pick.{pick};
ghost use Rattle.refusal.specs.Refusal as given;
ghost use Rattle.station.specs.Station as rule;
ghost use Rattle.station.specs.Record as board;
ghost use Rattle.station.specs.Limits as limit;
ghost use Rattle.station.specs.Limits.{Small, Steady};

use clock::{MAX_INCREMENT, MAX_PERIOD, MAX_READING, MAX_ROUND, MAX_STEP, Reading};
use refusal::Refusal;
use setup::Plan;

// A station: its round, what its clock shows, the last round it signed (0: none) and the signers it has gathered for the
// round it waits for.
#[derive(Clone, Copy, Default, PartialEq)]
pub struct Station {
    pub round: u64,
    pub reading: Reading,
    pub signed: u64,
    pub gathered: u64,
}

// What a station has done: how it stands then, whether it sent a ready, and the signers of the relay it sent (none: no relay, for
// which an `Option` of a mask would have two ways).
#[derive(Clone, Copy)]
pub struct Outcome {
    pub station: Station,
    pub ready: bool,
    pub relay: u64,
}

// The station as it is.
#[tactic(auto, unfolding(crate::specs::Station::still))]
fn still(s: Station) -> Outcome
    ensures { result ≡ rule.still s }
{
    Outcome {
        station: s,
        ready: false,
        relay: 0,
    }
}

// A station under a plan, with its round, the period and the step within their limits.
#[derive(Clone, Copy)]
struct Limited {
    plan: Plan,
    s: Station,
    ghost limits: { Small plan s },
}

impl Limited {
    // The mark of the round that the station waits for.
    fn mark_for(self) -> Reading
        ensures { result.0 ≡ rule.mark_for self.plan self.s }
    {
        Reading::mark(self.s.round + 1, self.plan.period)
    }

    // The station starts the round it waits for: its reading becomes the mark and A, and its gathering begins empty.
    fn start(self) -> Station
        ensures { result ≡ rule.start self.plan self.s }
    {
        Station {
            round: self.s.round + 1,
            reading: self.mark_for().on(self.plan.step),
            gathered: 0,
            ..self.s
        }
    }

    // As soon as it holds f + 1 signatures it starts, and relays every one that it then holds.
    fn settle(self, ready: bool) -> Outcome
        ensures { result ≡ rule.settle ready self.plan self.s }
    {
        let s = self.s;
        if self.plan.faults < mask::count(s.gathered) {
            return Outcome {
                station: self.start(),
                ready,
                relay: s.gathered,
            };
        }
        Outcome {
            station: s,
            ready,
            relay: 0,
        }
    }

    // It hears signatures of a round, and ignores those of any round but the one it waits for.
    fn gather(self, round: u64, signers: u64) -> Outcome
        ensures { result ≡ rule.hear self.plan round signers self.s }
    {
        if round != self.s.round + 1 {
            return still(self.s);
        }
        let mut next = self;
        next.s.gathered = mask::join(self.s.gathered, signers);
        next.settle(false)
    }

    // Station i signs the round it waits for, and counts its own signature.
    fn sign(self, i: u64) -> Outcome
        ensures { result ≡ rule.sign self.plan i self.s }
    {
        let mut next = self;
        next.s.signed = self.s.round + 1;
        next.s.gathered = mask::join(self.s.gathered, mask::only(i));
        next.settle(true)
    }

    // Whether the last signed round breaks its rule.
    fn bad_signed(self) -> bool
        ensures { result ≡ board.bad_signed self.plan self.s }
    {
        let s = self.s;
        let mark = self.mark_for().0;
        if mark <= s.reading.0 {
            return s.signed != s.round + 1;
        }
        s.round + 1 <= s.signed
    }
}

// Such a station whose reading is within its limit too, and an increment within its own.
#[derive(Clone, Copy)]
struct Moving {
    plan: Plan,
    by: u64,
    s: Station,
    ghost limits: { Steady plan by s },
}

impl Moving {
    // The mark of the round that the station waits for.
    fn mark(self) -> u64
        ensures { result ≡ rule.mark_for self.plan self.s }
    {
        let still = Limited {
            plan: self.plan,
            s: self.s,
        };
        still.mark_for().0
    }

    // Whether by so much its reading comes up from below to the mark.
    #[tactic(auto, unfolding(crate::specs::Station::lands))]
    fn lands(self) -> bool
        ensures { result ≡ rule.lands self.plan self.by self.s }
    {
        let mark = self.mark();
        (self.s.reading.0 < mark) & (self.s.reading.0 + self.by == mark)
    }

    // Whether by so much it would pass the mark.
    #[tactic(auto, unfolding(crate::specs::Station::passes))]
    fn passes(self) -> bool
        ensures { result ≡ rule.passes self.plan self.by self.s }
    {
        let mark = self.mark();
        (self.s.reading.0 < mark) & (mark < self.s.reading.0 + self.by)
    }

    // Whether by so much its reading would exceed the limit, or it would reach its next mark in the last round.
    #[tactic(auto, unfolding(crate::specs::Record::exceeds))]
    fn exceeds(self) -> bool
        ensures { result ≡ board.exceeds self.plan self.by self.s }
    {
        let mark = self.mark();
        let reading = self.s.reading.0 + self.by;
        (MAX_READING < reading) | ((self.s.round == MAX_ROUND) & (mark <= reading))
    }

    // Its clock goes on, and it signs where that brings it up to the mark.
    fn go_on(self, i: u64) -> Outcome
        ensures { result ≡ rule.advance self.plan i self.by self.s }
    {
        let next = Station {
            reading: self.s.reading.on(self.by),
            ..self.s
        };
        if self.lands() {
            let landed = Limited {
                plan: self.plan,
                s: next,
            };
            return landed.sign(i);
        }
        still(next)
    }
}

// Whether the round, the period and the step are within the limits.
#[tactic(auto, unfolding(crate::specs::Limits::small))]
fn small(plan: Plan, s: Station) -> bool
    ensures { result ≡ limit.small plan s }
{
    (s.round <= MAX_ROUND) & (plan.period <= MAX_PERIOD) & (plan.step <= MAX_STEP)
}

// Whether the reading and an increment are too.
#[tactic(auto, unfolding(crate::specs::Limits::steady))]
fn steady(plan: Plan, by: u64, s: Station) -> bool
    ensures { result ≡ limit.steady plan by s }
{
    small(plan, s) & (s.reading.0 <= MAX_READING) & (by <= MAX_INCREMENT)
}

// What hearing signatures of a round does to a station; nothing where a number is past its limit.
pub fn heard(plan: Plan, round: u64, signers: u64, s: Station) -> Outcome
    ensures { result ≡ pick (limit.small plan s) (rule.hear plan round signers s) (rule.still s) }
{
    if !small(plan, s) {
        return still(s);
    }
    let limited = Limited { plan, s };
    limited.gather(round, signers)
}

// What an increment does to station i; nothing where a number is past its limit.
pub fn advanced(plan: Plan, i: u64, by: u64, s: Station) -> Outcome
    ensures { result ≡ pick (limit.steady plan by s) (rule.advance plan i by s) (rule.still s) }
{
    if !steady(plan, by, s) {
        return still(s);
    }
    let moving = Moving { plan, by, s };
    moving.go_on(i)
}

// Why an increment is refused: 12, then 14. Past the limits, 12.
#[tactic(auto, unfolding(crate::specs::Record::move_answer))]
pub fn refuses(plan: Plan, by: u64, s: Station) -> Result<(), Refusal>
    ensures { given.answer result ≡ pick (limit.steady plan by s) (board.move_answer plan by s) 12 }
{
    if !steady(plan, by, s) {
        return Err(Refusal::Exceeds);
    }
    let moving = Moving { plan, by, s };
    if moving.exceeds() {
        return Err(Refusal::Exceeds);
    }
    if moving.passes() {
        return Err(Refusal::Passes);
    }
    Ok(())
}

// Whether round, reading or last signed round is past its limit.
#[tactic(auto, unfolding(crate::specs::Record::bad_numbers))]
fn bad_numbers(s: Station) -> bool
    ensures { result ≡ board.bad_numbers s }
{
    (MAX_ROUND < s.round) | (MAX_READING < s.reading.0) | (MAX_ROUND < s.signed)
}

// Whether more than f signers are gathered, or one at n or above.
#[tactic(auto, unfolding(crate::specs::Record::bad_gathered))]
fn bad_gathered(plan: Plan, s: Station) -> bool
    ensures { result ≡ board.bad_gathered plan s }
{
    !mask::below(s.gathered, plan.stations) | (plan.faults < mask::count(s.gathered))
}

// Whether a sound station's record breaks a rule; so it does where the plan is past its limits.
#[tactic(auto, unfolding(crate::specs::Record::past_limits, crate::specs::Record::bad_station, crate::specs::Record::bad_numbers))]
pub fn bad_station(plan: Plan, s: Station) -> bool
    ensures { result ≡ (board.past_limits plan || board.bad_station plan s) }
{
    if plan.period > MAX_PERIOD {
        return true;
    }
    if plan.step > MAX_STEP {
        return true;
    }
    if bad_numbers(s) {
        return true;
    }
    let limited = Limited { plan, s };
    limited.bad_signed() | bad_gathered(plan, s)
}

// 10: whether the plan or the board's own record breaks a rule.
#[tactic(auto, unfolding(crate::specs::Record::bad_board))]
fn bad_board(plan: Plan, s: Station) -> bool
    ensures { result ≡ board.bad_board plan s }
{
    if setup::plan_answer(plan).is_err() {
        return true;
    }
    bad_station(plan, s)
}

// A board hears signatures of a round: 10, then 11, else what the station does.
pub fn hear(plan: Plan, round: u64, signers: u64, s: Station) -> Result<Outcome, Refusal>
    ensures { board.as_board s result ≡ board.answered (board.hear_answer plan round signers s) s (rule.hear plan round signers s) }
{
    if bad_board(plan, s) {
        return Err(Refusal::Record);
    }
    if clock::outside(1, MAX_ROUND, round) | (signers == 0) | !mask::below(signers, plan.stations) {
        return Err(Refusal::Barred);
    }
    let limited = Limited { plan, s };
    Ok(limited.gather(round, signers))
}

// A board's clock goes on by an increment: 10, 11, 12, 14, else what the station does.
pub fn advance(plan: Plan, i: u64, by: u64, s: Station) -> Result<Outcome, Refusal>
    ensures { board.as_board s result ≡ board.answered (board.advance_answer plan i by s) s (rule.advance plan i by s) }
{
    if bad_board(plan, s) {
        return Err(Refusal::Record);
    }
    if (plan.stations <= i) | mask::has(plan.faulty, i) | (MAX_INCREMENT < by) {
        return Err(Refusal::Barred);
    }
    refuses(plan, by, s)?;
    let moving = Moving { plan, by, s };
    Ok(moving.go_on(i))
}
