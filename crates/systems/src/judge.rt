// Judging a list of choices: is it a run whose last state is bad?
ghost use Rattle.std.specs.Prelude.{◌≡◌};
ghost use Rattle.systems.specs.Outcomes.{answer_of};
ghost use Rattle.systems.specs.Judging.{judged, ended, Judges, SaysWhy};

use crate::outcome::{Answer, Outcome, Refusal, answer};
use crate::system::System;

// A run of this length ends at the state.
fn ending<Y: System>(system: &Y, state: &Y::State, length: usize) -> Outcome
    ensures { result ≡ ended (Y.meaning system.now) state.now length }
{
    if system.is_bad(state) {
        Ok(length)
    } else {
        Err(Refusal::EndsNotBad(length))
    }
}

// Follows the choices from the first state.
fn outcome<Y: System>(system: &Y, choices: &[u32]) -> Outcome
    ensures { result ≡ judged (Y.meaning system.now) choices.now }
{
    let mut state = system.first();
    // A loop: with `try_fold` the state, the position and the refusal would stand in one closure, no plainer.
    for (i, choice) in choices.iter().enumerate() {
        if !system.is_legal(&state, *choice) {
            return Err(Refusal::NotLegal(i));
        }
        state = system.next(&state, *choice);
    }
    ending(system, &state, choices.len())
}

// Accepts the choices, with their number, exactly when they are a run whose last state is bad.
pub fn judge<Y: System>(system: &Y, choices: &[u32]) -> Answer
    ensures answer { result ≡ answer_of (judged (Y.meaning system.now) choices.now) }
    ensures exact { Judges (Y.meaning system.now) choices.now result }
    ensures why { SaysWhy (Y.meaning system.now) choices.now result }
{
    answer(outcome(system, choices))
}
