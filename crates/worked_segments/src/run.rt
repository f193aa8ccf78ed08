use crate::cases::Case;
use crate::opening::Opening;
use crate::owner::Owner;
use crate::steps::Step;
use std::alloc::{AllocError, Global};

/// Runs a case, and says whether it came to what it must come to: `passed`, or what was otherwise.
pub fn verdict(alloc: Global, case: &Case<'_>) -> Result<String, AllocError> {
    let Some(opening) = Opening::read(case.opening) else {
        return "FAILED: its opening has no reading".to_string(alloc);
    };
    let mut owner = Owner::open(alloc, &opening)?;
    verdict_on(alloc, &mut owner, case)
}

// Takes the steps of a case, and says what came of them.
fn verdict_on(alloc: Global, owner: &mut Owner, case: &Case<'_>) -> Result<String, AllocError> {
    if !follow(owner, case.before.as_str())? {
        return "FAILED: a step before has no reading".to_string(alloc);
    }
    owner.forget();
    let before = owner.taken();
    if !follow(owner, case.steps.as_str())? {
        return "FAILED: a step has no reading".to_string(alloc);
    }
    let took = owner.taken().saturating_sub(before);
    if owner.change() != case.change {
        return otherwise(alloc, "change", owner.change(), case.change);
    }
    verdict_on_count(alloc, owner, took, case)
}

fn verdict_on_count(
    alloc: Global,
    owner: &mut Owner,
    took: u64,
    case: &Case<'_>,
) -> Result<String, AllocError> {
    let took = took.to_string(alloc)?;
    if took.as_str() != case.took {
        return otherwise(alloc, "count of octets", took.as_str(), case.took);
    }
    if owner.out() != case.out {
        return otherwise(alloc, "output", owner.out(), case.out);
    }
    verdict_on_state(alloc, owner, case.state)
}

fn verdict_on_state(alloc: Global, owner: &mut Owner, wanted: &str) -> Result<String, AllocError> {
    let (edge, behind) = expected(wanted);
    let state = owner.state(edge, behind)?;
    if state.as_str() != wanted {
        return otherwise(alloc, "state", state.as_str(), wanted);
    }
    "passed".to_string(alloc)
}

// Takes all steps. Answers whether each has a reading.
fn follow(owner: &mut Owner, steps: &str) -> Result<bool, AllocError> {
    if steps.is_empty() {
        return Ok(true);
    }
    for step in steps.split("; ") {
        let Some(step) = Step::read(step) else {
            return Ok(false);
        };
        owner.take(&step)?;
    }
    Ok(true)
}

// The edge of the guest's window in a state, and what stands behind the brackets.
fn expected(state: &str) -> (u64, &str) {
    let (numbers, behind) = state.split_once(')').unwrap_or((state, ""));
    let (_, numbers) = numbers.split_once('(').unwrap_or((numbers, ""));
    let edge = numbers.split(' ').nth(3).unwrap_or("");
    (edge.parse::<u64>().unwrap_or(0), behind)
}

fn otherwise(alloc: Global, what: &str, is: &str, wanted: &str) -> Result<String, AllocError> {
    format!(in alloc; "FAILED: its {what} is {is}, and was to be {wanted}")
}
