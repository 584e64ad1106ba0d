// Plans a day of three slots, checks the plan, follows it, and prints what it costs.
#![tactic(auto)]

use curve::fault::CurveFault;
use curve::limits::TOP;
use curve::square::Square;
use day::day::Day;
use day::slot::Slot;
use report::text::PlanText;

// A slot that costs the square of the distance from a target, with a toll of 4 for each level up or down.
fn slot(target: u16) -> Result<Slot<Square>, CurveFault> {
    Ok(Slot {
        curve: Square::new(1, target)?,
        low: 0,
        high: TOP,
        up: 4,
        down: 4,
    })
}

fn main(rt: HostRuntime) -> anyhow::Result<()> {
    let cold = slot(10)?;
    let mut memory = [cold; 3];
    let mut day = Day::open(&mut memory);
    day.add(cold)?;
    day.add(slot(20)?)?;
    day.add(cold)?;
    rt.print(PlanText { day: &day })?;
    Ok(())
}
