// Replaying a run of calls on a new day, sheets among them, with the whole promise.
ghost use Rattle.std.specs.Prelude.{◌≡◌, [], ◌∷◌, ◌++◌, vec_len, IfOk, Ok, Err, OnErr};
ghost use Rattle.curve.specs.WrittenCurves.{written_ground, written_steps};
ghost use Rattle.day.specs.View.{plain, memory_of, empty_day};
ghost use Rattle.sheet.specs.Sheets.{decoded};
ghost use Rattle.replay.specs.PlainRun.{Lent, told_by, after, memory_after, memory_after_all, calls_made, terms, plan_told, answer as plain_answer};
ghost use Rattle.replay.specs.Promise.{Leaning, Promise};

use crate::answer::Answer;
use crate::answer::CallFault::{self, Refused, Unread};
use crate::call::{Buffers, Call, Moment, Unfinished};
use curve::Curve;
use curve::written::Written;
use day::day::Day;
use sheet::sheets::{Records, Sheets};
use slots::slot::Slot;
use std::alloc::{AllocError, Global};

// Plans in lent buffers, and answers the places of the day's slots.
fn plan_in<C: Curve + Copy>(
    day: &Day<'_, C>,
    mut levels: Vec<u16>,
    mut leans: Vec<i64>,
    mut table: Vec<i64>,
    mut marks: Vec<u16>,
) -> Result<Answer, CallFault>
    ensures answer { told_by result ≡ plan_told C.Curve.ground C.Curve.steps (plain day.now) (record { levels = vec_len levels; leans = vec_len leans; table = vec_len table; marks = vec_len marks }) }
    ensures leaning { Leaning (terms C.Curve.ground C.Curve.steps (plain day.now)) result }
{
    let count = day.slots().len();
    let cost = day.plan(&mut levels, &mut leans, &mut table, &mut marks)?;
    levels.truncate(count);
    leans.truncate(count);
    Ok(Answer::Planned {
        cost,
        levels,
        leans,
    })
}

// Plans in buffers of the given lengths.
fn plan<C: Curve + Copy>(
    heap: Global,
    day: &Day<'_, C>,
    lengths: Buffers,
) -> Result<Result<Answer, CallFault>, AllocError>
    ensures answer { IfOk result (λ a. told_by a ≡ plan_told C.Curve.ground C.Curve.steps (plain day.now) lengths) }
    ensures leaning { IfOk result (λ a. Leaning (terms C.Curve.ground C.Curve.steps (plain day.now)) a) }
{
    let levels = vec![in heap; 0u16; lengths.levels]?;
    let leans = vec![in heap; 0i64; lengths.leans]?;
    let table = vec![in heap; 0i64; lengths.table]?;
    let marks = vec![in heap; 0u16; lengths.marks]?;
    Ok(plan_in(day, levels, leans, table, marks))
}

// Makes one call on a day; where there is no memory for the buffers of a plan, nothing is done.
fn make<C: Curve + Copy, R: Sheets<C>>(
    heap: Global,
    day: &mut Day<'_, C>,
    call: &Call<'_, C>,
) -> Result<Result<Answer, CallFault>, AllocError>
    ensures day { plain day.new ≡ after R.Sheets.decoded (plain day.old) call.now }
    ensures memory { memory_of day.new ≡ memory_after R.Sheets.decoded (plain day.old) (memory_of day.old) call.now }
    ensures unmade { OnErr result (memory_of day.new ≡ memory_of day.old) }
    ensures spared { OnErr result (Lent call.now) }
    ensures lender { day.new.slots.ghost_name ≡ day.old.slots.ghost_name }
    ensures answer { IfOk result (λ a. told_by a ≡ plain_answer C.Curve.ground C.Curve.steps R.Sheets.decoded (plain day.old) call.now) }
    ensures leaning { IfOk result (λ a. Leaning (terms C.Curve.ground C.Curve.steps (plain day.old)) a) }
{
    Ok(match *call {
        Call::Add(slot) => day.add(slot).map(|()| Answer::Done).map_err(Refused),
        Call::Replace(place, slot) => day
            .replace(place, slot)
            .map(|()| Answer::Done)
            .map_err(Refused),
        Call::Drop => day.drop().map(|()| Answer::Done).map_err(Refused),
        Call::Sheet(bytes) => R::read(day, bytes).map(|()| Answer::Done).map_err(Unread),
        Call::Price(levels) => day.price(levels).map(Answer::Cost).map_err(Refused),
        Call::Plan(lengths) => plan(heap, day, lengths)?,
        Call::Check(levels, leans) => day
            .check(levels, leans)
            .map(|plan| Answer::Cost(plan.cost()))
            .map_err(Refused),
    })
}

// Notes an answer with the day's slots.
fn note<C: Copy>(
    heap: Global,
    moments: &mut Vec<Moment<C>>,
    day: &Day<'_, C>,
    answer: Result<Answer, CallFault>,
) -> Result<(), AllocError>
    ensures { IfOk result (λ x. ((m : Moment C) × (moments.new.items ≡ moments.old.items ++ m ∷ []) × (m.answer ≡ answer) × (m.slots.items ≡ (plain day.now).slots))) }
{
    let slots = Vec::from_slice(heap, day.slots())?;
    moments.push(Moment { answer, slots })?;
    Ok(())
}

// Opens a new day on slot memory, makes the calls in their order, and hands back one moment a call.
pub fn replay<C: Curve + Copy, R: Sheets<C>>(
    heap: Global,
    memory: &mut [Slot<C>],
    calls: &[Call<'_, C>],
) -> Result<Vec<Moment<C>>, Unfinished>
    ensures promise { IfOk result (λ moments. Promise C.Curve.ground C.Curve.steps R.Sheets.decoded memory.old calls.now moments.items) }
    ensures memory { memory.new ≡ memory_after_all R.Sheets.decoded (empty_day memory.old) memory.old (calls_made result calls.now) }
{
    let mut day = Day::open(memory);
    let mut moments = Vec::new(heap);
    for (made, call) in calls.iter().enumerate() {
        let answer = make::<C, R>(heap, &mut day, call).map_err(|_| Unfinished { made })?;
        let made = made + 1;
        note(heap, &mut moments, &day, answer).map_err(|_| Unfinished { made })?;
    }
    Ok(moments)
}

// The same on a day of written curves, with the sheets that they have.
pub fn replay_written(
    heap: Global,
    memory: &mut [Slot<Written>],
    calls: &[Call<'_, Written>],
) -> Result<Vec<Moment<Written>>, Unfinished>
    ensures promise { IfOk result (λ moments. Promise written_ground written_steps decoded memory.old calls.now moments.items) }
    ensures memory { memory.new ≡ memory_after_all decoded (empty_day memory.old) memory.old (calls_made result calls.now) }
{
    replay::<Written, Records>(heap, memory, calls)
}
