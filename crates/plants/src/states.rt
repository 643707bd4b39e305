// Which states fit a plant, and which are bad.
// The bound of a task's number is a clause of each function, since the rules count with numbers.
ghost use Rattle.std.specs.Prelude.{◌≡◌, ◌<◌, ◌&&◌, ◌==◌, length};
ghost use Rattle.plants.specs.Limits.{most_tasks};
ghost use Rattle.plants.specs.Records.{first_state};
ghost use Rattle.plants.specs.Tick.{fits_task, fits_at, state_fits, is_late};

use crate::layout::{Layout, MOST_TASKS, Task};
use crate::state::{BLANK, Phase, PlantState, Record};

// Every record is four zeros.
pub(crate) fn first() -> PlantState
    ensures { result ≡ first_state }
{
    PlantState {
        records: [BLANK; MOST_TASKS],
    }
}

// Whether a task can have the record.
fn fits_task(task: &Task, r: &Record) -> bool
    ensures { result ≡ fits_task task.now r.now }
{
    let idle = r.run == 0 && r.waited == 0;
    match r.phase {
        Phase::Before => r.since <= task.offset && idle,
        Phase::Done => (1..=task.greatest).contains(&r.since) && idle,
        Phase::Held => r.since <= task.deadline && idle,
        Phase::Ready => { r.since <= task.deadline && r.run < task.worst && r.waited <= r.since }
    }
}

// Whether record i fits the plant: that of a task fits the task, and each other one is four zeros.
#[tactic(auto, unfolding(crate::specs::Tick::fits_at))]
fn fits_at(layout: &Layout, state: &PlantState, i: usize) -> bool
    requires { i < most_tasks }
    ensures { result ≡ (length state.now.records == most_tasks && fits_at layout.now state.now.records i) }
{
    let record = state.records[i];
    if i < layout.tasks.len() {
        fits_task(&layout.tasks[i], &record)
    } else {
        record == BLANK
    }
}

// Whether every record of the state fits the plant.
pub(crate) fn fits(layout: &Layout, state: &PlantState) -> bool
    ensures { result ≡ state_fits layout.now state.now.records }
{
    (0..MOST_TASKS).all(|i| fits_at(layout, state, i))
}

// A held or ready task has come to its deadline.
pub(crate) fn is_late(task: &Task, r: &Record) -> bool
    ensures { result ≡ is_late task.now r.now }
{
    matches!(r.phase, Phase::Held | Phase::Ready) && r.since == task.deadline
}
