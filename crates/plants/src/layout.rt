// What a plant is made of.
ghost use Rattle.plants.specs.Unused.{no_resource, no_task};

use crate::fixed_list::{FixedList, Unused};

// The greatest number of ticks that a field of a task may be.
pub const MOST_TICKS: u32 = 255;

// How many resources and tasks a draft takes.
pub const MOST_RESOURCES: usize = 4;

pub const MOST_TASKS: usize = 8;

// Two plain numbers by a rule of the project: any lawful policy may stand in a plant, and read them in its own way.
#[derive(Clone, Copy, Debug, Default, PartialEq, Eq)]
pub struct Resource {
    pub policy: u32,
    pub preempt: u32,
}

impl Unused for Resource {
    ghost filler = { no_resource };

    fn unused() -> Resource {
        Resource::default()
    }
}

// A task that was entered, with the priority of its class.
#[derive(Clone, Copy, Debug, Default, PartialEq, Eq)]
pub struct Task {
    // ticks before the first release
    pub offset: u32,
    // the least and the greatest gap between two releases
    pub least: u32,
    pub greatest: u32,
    // the best and the worst time for which it runs
    pub best: u32,
    pub worst: u32,
    // ticks from a release to the deadline
    pub deadline: u32,
    pub priority: u32,
    pub resource: u32,
    // the sum of 2^j over the tasks j that it needs
    pub needs: u32,
}

impl Unused for Task {
    ghost filler = { no_task };

    fn unused() -> Task {
        Task::default()
    }
}

// A task's nine fields as they are entered: a class stands in the place of the priority. A struct of its own: with the
// other eight fields in one that both hold, the nine would no longer stand in their order in one literal.
#[derive(Clone, Copy, Debug, PartialEq, Eq)]
pub struct TaskEntry {
    pub offset: u32,
    pub least: u32,
    pub greatest: u32,
    pub best: u32,
    pub worst: u32,
    pub deadline: u32,
    pub class: u32,
    pub resource: u32,
    pub needs: u32,
}

// The resources and tasks that were entered, in order of their numbers.
#[derive(Clone, Copy, Debug, PartialEq, Eq)]
pub struct Layout {
    pub resources: FixedList<Resource, MOST_RESOURCES>,
    pub tasks: FixedList<Task, MOST_TASKS>,
}
