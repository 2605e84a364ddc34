//! Outcomes by how early they differ from the first.
ghost use Rattle.std.specs.Prelude.{◌≡◌, ◌++◌, ◌∷◌, [], filter, length, not, IfOk, OnOk};
ghost use Rattle.trace_outcomes.specs.Outcomes.{agrees_at, rising, in_order};

use crate::outcomes::Outcome;
use egl_calls::NoMemory;
use std::alloc::Global;

/// Outcomes that answer a line otherwise than another outcome, and those that answer it the same.
#[derive(Drop)]
struct Parted {
    differing: Vec<Outcome>,
    agreeing: Vec<Outcome>,
}

/// Whether the line at a place answers as in another outcome.
fn agrees_at(first: &Outcome, place: usize, outcome: &Outcome) -> bool
    ensures { result ≡ agrees_at first.now place outcome.now }
{
    outcome.answer(place) == first.answer(place)
}

fn put_behind(outcomes: &mut Vec<Outcome>, outcome: Outcome) -> Result<(), NoMemory>
    ensures { OnOk result (outcomes.new.items ≡ outcomes.old.items ++ outcome ∷ []) }
{
    match outcomes.push(outcome) {
        Ok(()) => Ok(()),
        Err(_) => Err(NoMemory),
    }
}

/// Parts outcomes by the line at a place. Each part keeps their order.
fn part_at(
    alloc: Global,
    first: &Outcome,
    place: usize,
    outcomes: Vec<Outcome>,
) -> Result<Parted, NoMemory>
    ensures differing { IfOk result (λ p. p.differing.items ≡ filter (λ o. not (agrees_at first.now place o)) outcomes.items) }
    ensures agreeing { IfOk result (λ p. p.agreeing.items ≡ filter (agrees_at first.now place) outcomes.items) }
{
    let mut differing = Vec::new(alloc);
    let mut agreeing = Vec::new(alloc);
    'each: for outcome in outcomes {
        if agrees_at(first, place, &outcome) {
            put_behind(&mut agreeing, outcome)?;
        } else {
            put_behind(&mut differing, outcome)?;
        }
    }
    Ok(Parted {
        differing,
        agreeing,
    })
}

/// Moves outcomes behind others.
fn append(outcomes: &mut Vec<Outcome>, more: Vec<Outcome>) -> Result<(), NoMemory>
    ensures { OnOk result (outcomes.new.items ≡ outcomes.old.items ++ more.items) }
{
    let mut more = more;
    match outcomes.append(&mut more) {
        Ok(()) => Ok(()),
        Err(_) => Err(NoMemory),
    }
}

/// Others than the first, line after line: those that differ from it there, in front of those that agree.
fn rising(alloc: Global, first: &Outcome, others: Vec<Outcome>) -> Result<Vec<Outcome>, NoMemory>
    ensures { IfOk result (λ v. v.items ≡ rising first.now 0 (length first.now.answers) others.items) }
{
    let mut ordered = Vec::new(alloc);
    let mut left = others;
    'each: for place in 0..first.answers().len() {
        let Parted {
            differing,
            agreeing,
        } = part_at(alloc, first, place, left)?;
        append(&mut ordered, differing)?;
        left = agreeing;
    }
    append(&mut ordered, left)?;
    Ok(ordered)
}

/// The first one, and the others rising by how early they differ from it. Those that first differ at one line keep their order.
pub fn in_order(alloc: Global, outcomes: Vec<Outcome>) -> Result<Vec<Outcome>, NoMemory>
    ensures { IfOk result (λ v. v.items ≡ in_order outcomes.items) }
{
    let mut others = outcomes;
    if others.is_empty() {
        return Ok(others);
    }
    let first = others.remove(0);
    let behind = rising(alloc, &first, others)?;
    let mut ordered = Vec::new(alloc);
    put_behind(&mut ordered, first)?;
    append(&mut ordered, behind)?;
    Ok(ordered)
}
