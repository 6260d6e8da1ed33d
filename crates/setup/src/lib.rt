// The setup check: a planned line is answered with document 01's number, 0 where it passes, 1 to 8 where it is
// refused, the checks in exactly that order. Any numbers and any number of first readings are answered.
#![tactic(auto)]

ghost use Rattle.std.specs.Prelude.{◌≡◌, length};
ghost use Rattle.clock.specs.Tests.{some_to};
ghost use Rattle.refusal.specs.Refusal as given;
ghost use Rattle.setup.specs.Setup as rule;
ghost use Rattle.setup.specs.Laws.{InLimits};

use refusal::Refusal;

// What a setup names beside its first readings: document 01's n, f, r, T, D, A, P and the mask of faulty stations.
#[derive(Clone, Copy, Default)]
pub struct Plan {
    pub stations: u64,
    pub faults: u64,
    pub drift: u64,
    pub bound: u64,
    pub spread: u64,
    pub step: u64,
    pub period: u64,
    pub faulty: u64,
}

// 2: 2f + 1 > n, asked without a sum that could wrap.
#[tactic(auto, unfolding(crate::specs::Setup::bad_faults))]
fn bad_faults(plan: Plan) -> bool
    ensures { result ≡ rule.bad_faults plan }
{
    if plan.stations <= plan.faults {
        return true;
    }
    plan.stations - plan.faults <= plan.faults
}

// 3: r, T, D, A or P outside its limits.
#[tactic(auto, unfolding(crate::specs::Setup::bad_limits))]
fn bad_limits(plan: Plan) -> bool
    ensures { result ≡ rule.bad_limits plan }
{
    clock::outside(0, clock::MAX_DRIFT, plan.drift)
        | clock::outside(1, clock::MAX_BOUND, plan.bound)
        | clock::outside(1, clock::MAX_SPREAD, plan.spread)
        | clock::outside(1, clock::MAX_STEP, plan.step)
        | clock::outside(1, clock::MAX_PERIOD, plan.period)
}

// 4: a faulty mark at n or above, or more than f marks.
#[tactic(auto, unfolding(crate::specs::Setup::bad_marks))]
fn bad_marks(plan: Plan) -> bool
    ensures { result ≡ rule.bad_marks plan }
{
    !mask::below(plan.faulty, plan.stations) | (plan.faults < mask::count(plan.faulty))
}

// A plan that 3 does not refuse: no product of the rules that follow wraps.
#[derive(Clone, Copy)]
struct Limited {
    plan: Plan,
    ghost in_limits: { InLimits plan },
}

impl Limited {
    // gap: P > A and (P - A)·M > T·S.
    #[tactic(auto, unfolding(crate::specs::Setup::gap))]
    fn gap(self) -> bool
        ensures { result ≡ rule.gap self.plan }
    {
        let plan = self.plan;
        if plan.period <= plan.step {
            return false;
        }
        let s = clock::PARTS + plan.drift;
        plan.bound * s < (plan.period - plan.step) * clock::PARTS
    }

    // step: A·M·M >= (S·D + M·T)·S.
    #[tactic(auto, unfolding(crate::specs::Setup::steps))]
    fn steps(self) -> bool
        ensures { result ≡ rule.steps self.plan }
    {
        let plan = self.plan;
        let m = clock::PARTS;
        let s = m + plan.drift;
        (s * plan.spread + m * plan.bound) * s <= plan.step * m * m
    }

    // spread: D·S·M·M >= (P·S + T·M)·(S·S - M·M) + T·S·S·M.
    #[tactic(auto, unfolding(crate::specs::Setup::spreads))]
    fn spreads(self) -> bool
        ensures { result ≡ rule.spreads self.plan }
    {
        let plan = self.plan;
        let m = clock::PARTS;
        let s = m + plan.drift;
        (plan.period * s + plan.bound * m) * (s * s - m * m) + plan.bound * s * s * m
            <= plan.spread * s * m * m
    }

    // Whether station i's first reading x breaks its rule: zero for a faulty station, for a sound one from A to A + T.
    #[tactic(auto, unfolding(crate::specs::Setup::bad_first))]
    fn bad_first(self, i: u64, x: u64) -> bool
        ensures { result ≡ rule.bad_first self.plan i x }
    {
        let plan = self.plan;
        if mask::has(plan.faulty, i) {
            return x != 0;
        }
        clock::outside(plan.step, plan.step + plan.bound, x)
    }

    // Whether one of the first readings breaks its rule.
    fn some_bad_first(self, first: &[u64]) -> bool
        ensures { result ≡ some_to (rule.bad_first self.plan) first.now (length first.now) }
    {
        first
            .iter()
            .enumerate()
            .any(|(i, &x)| self.bad_first(i as u64, x))
    }
}

// The answer to a plan, first readings apart: 1 to 7, or 0.
#[tactic(auto, unfolding(crate::specs::Setup::plan_answer, crate::specs::Setup::bad_stations))]
pub fn plan_answer(plan: Plan) -> Result<(), Refusal>
    ensures { given.answer result ≡ rule.plan_answer plan }
{
    if clock::outside(1, clock::MAX_STATIONS, plan.stations) {
        return Err(Refusal::Stations);
    }
    if bad_faults(plan) {
        return Err(Refusal::Faults);
    }
    if bad_limits(plan) {
        return Err(Refusal::Limits);
    }
    if bad_marks(plan) {
        return Err(Refusal::Marks);
    }
    let limited = Limited { plan };
    if !limited.gap() {
        return Err(Refusal::Gap);
    }
    if !limited.steps() {
        return Err(Refusal::Step);
    }
    if !limited.spreads() {
        return Err(Refusal::Spread);
    }
    Ok(())
}

// The answer to a setup: 1 to 8, or 0.
#[tactic(auto, unfolding(crate::specs::Setup::setup_answer, crate::specs::Setup::first_answer))]
pub fn answer(plan: Plan, first: &[u64]) -> Result<(), Refusal>
    ensures { given.answer result ≡ rule.setup_answer plan first.now }
{
    plan_answer(plan)?;
    if first.len() as u64 != plan.stations {
        return Err(Refusal::First);
    }
    let limited = Limited { plan };
    if limited.some_bad_first(first) {
        return Err(Refusal::First);
    }
    Ok(())
}
