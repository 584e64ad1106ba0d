// Small days of any kind, held to what is found by trying all their plans.
ghost use Rattle.std.specs.Prelude.{◌<◌};

use crate::holding::plan_is;
use crate::making::day_of;
use curve::Curve;
use curve::pair::Pair;
use curve::written::Written;
use day::day::Day;
use slots::slot::Slot;
use std::process::Abort;
use std::test::Fail;

// A row of numbers that look like chance.
#[derive(Drop)]
struct Chance {
    state: u64,
}

impl Chance {
    fn below(&mut self, bound: u16) -> u16
        requires { 0 < bound }
        ensures { result < bound }
    {
        self.state = self
            .state
            .wrapping_mul(6_364_136_223_846_793_005)
            .wrapping_add(1_442_695_040_888_963_407);
        ((self.state >> 33) % u64::from(bound)) as u16
    }

    fn curve(&mut self) -> Written {
        match self.below(3) {
            0 => Written::Square {
                weight: 1 + u32::from(self.below(3)),
                target: self.below(7),
            },
            1 => {
                let cold = self.below(5);
                Written::Band {
                    cold,
                    warm: cold.max(self.below(6)),
                    cold_rate: u32::from(self.below(5)),
                    warm_rate: u32::from(self.below(5)),
                }
            }
            _ => {
                let first = i32::from(self.below(6)) - 5;
                let second = first + i32::from(self.below(4));
                let third = second + i32::from(self.below(4));
                Written::Knees {
                    ground: i64::from(self.below(9)) - 4,
                    first,
                    count: 1 + self.below(2) as u8,
                    levels: [1 + self.below(2), 3, 0, 0, 0, 0],
                    steps: [second, third, 0, 0, 0, 0],
                }
            }
        }
    }

    // A slot of any kind.
    fn any(&mut self) -> Slot<Written> {
        let curve = self.curve();
        self.slot(curve)
    }

    fn slot<C>(&mut self, curve: C) -> Slot<C> {
        let low = self.below(5);
        Slot {
            curve,
            low,
            high: low.max(self.below(5)),
            up: u32::from(self.below(6)),
            down: u32::from(self.below(6)),
        }
    }
}

// The levels of three slots from all cold to all warm, the last slot first; the first slots of fewer are not used.
fn levels_of(turn: u16) -> [u16; 3] {
    [turn / 25, turn / 5 % 5, turn % 5]
}

// The least cost of all plans, and the first turn from cold to warm that has it.
fn cheapest_of_all<C: Curve + Copy>(day: &Day<'_, C>, unused: usize) -> Option<(i64, u16)>
    requires { unused < 4 }
{
    (0..125u16)
        .filter_map(|turn| {
            let levels = levels_of(turn);
            let cost = day.price(&levels[unused..]).ok()?;
            Some((cost, turn))
        })
        .min()
}

fn plan_is_found<C: Curve + Copy>(
    rt: &impl Abort,
    memory: &mut [Slot<C>],
    slots: &[Slot<C>],
) -> Result<(), Fail> {
    assert!(rt; slots.len() <= 3);
    let unused = 3 - slots.len();
    let day = day_of(memory, slots)?;
    let (cost, turn) = cheapest_of_all(&day, unused).ok_or("no plan lies within the bounds")?;
    let levels = levels_of(turn);
    plan_is(rt, &day, &levels[unused..], cost)
}

#[test]
fn small_days_have_the_plan_that_trying_all_finds(rt: HostRuntime) -> Result<(), Fail> {
    let mut chance = Chance { state: 1 };
    for number in 0..600usize {
        let slots = [chance.any(), chance.any(), chance.any()];
        let mut memory = slots;
        plan_is_found(&rt, &mut memory, &slots[number % 3..])?;
    }
    Ok(())
}

#[test]
fn small_days_of_pairs_have_the_plan_that_trying_all_finds(rt: HostRuntime) -> Result<(), Fail> {
    let mut chance = Chance { state: 2 };
    for number in 0..300usize {
        let first = Pair::new(chance.curve(), chance.curve())?;
        let second = Pair::new(chance.curve(), chance.curve())?;
        let third = Pair::new(chance.curve(), chance.curve())?;
        let slots = [chance.slot(first), chance.slot(second), chance.slot(third)];
        let mut memory = slots;
        plan_is_found(&rt, &mut memory, &slots[number % 3..])?;
    }
    Ok(())
}
