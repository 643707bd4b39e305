// The calls of a draft: what an entry comes to, what it leaves, and fixing.
// The bound of a task's number is a clause of each function, since the rules count with numbers.
ghost use Rattle.std.specs.Prelude.{◌≡◌, ℕ, ◌<◌, ◌≤◌, List};
ghost use Rattle.std.specs.List.{find, range_with_len};
ghost use Rattle.systems.specs.Outcomes.{answer_of};
ghost use Rattle.policies.specs.Classes.{classes};
ghost use Rattle.plants.specs.Limits.{most_tasks, most_resources};
ghost use Rattle.plants.specs.Layouts.{nothing, is_within, unlike, entered, with_task, with_resource, resource_count, task_count};
ghost use Rattle.plants.specs.Chains.{RunsChain};
ghost use Rattle.plants.specs.Entries.{outside_field, resource_comes_to, task_comes_to, after_resource, after_task};
ghost use Rattle.plants.specs.Entering.{EntersResource, EntersTask, EnteredExactly};

use crate::bits::has_bit;
use crate::draft::DraftPlant;
use crate::fixed_list::FixedList;
use crate::layout::{Layout, MOST_TICKS, Resource, Task, TaskEntry};
use crate::plant::Plant;
use policies::classes::priority;
use policies::orders::Discipline;
use policies::policy::Policy;
use policies::site::Preemption;
use systems::outcome::{Answer, Outcome, Refusal, answer};

// The places of the fields resource and needs, from 1.
const RESOURCE_FIELD: u32 = 8;

const NEEDS_FIELD: u32 = 9;

impl DraftPlant {
    // A draft with no entry.
    pub fn new() -> DraftPlant
        ensures { result.layout ≡ nothing }
    {
        DraftPlant {
            layout: Layout {
                resources: FixedList::new(),
                tasks: FixedList::new(),
            },
        }
    }

    // Enters a resource and answers its number, or refuses it and changes nothing. Two plain numbers by a rule of the
    // project, as those of `Resource`.
    pub fn add_resource(&mut self, policy: u32, preempt: u32) -> Answer
        ensures answer { result ≡ answer_of (resource_comes_to self.old.layout policy preempt) }
        ensures after { self.new.layout ≡ after_resource self.old.layout policy preempt }
        ensures exact { EnteredExactly (EntersResource self.old.layout policy preempt) (resource_count self.old.layout) result }
    {
        answer(self.enter_resource(policy, preempt))
    }

    // Enters a task and answers its number, or refuses it and changes nothing.
    pub fn add_task(&mut self, task: TaskEntry) -> Answer
        ensures answer { result ≡ answer_of (task_comes_to self.old.layout task) }
        ensures after { self.new.layout ≡ after_task self.old.layout task }
        ensures exact { EnteredExactly (EntersTask self.old.layout task) (task_count self.old.layout) result }
    {
        answer(self.enter_task(&task))
    }

    // How many tasks are entered.
    pub fn task_count(&self) -> usize
        ensures { result ≡ task_count self.now.layout }
    {
        self.layout.tasks.len()
    }

    // Moves the draft into a plant that holds exactly its entries, and whose runs are the chains of its ticks.
    #[tactic(auto, using(crate::proofs::Chained::runs_chain, crate::specs::Entered::valid_parts))]
    pub fn fix<P: Policy>(self, policy: P) -> Plant<P>
        ensures layout { result.layout ≡ self.layout }
        ensures policy { result.policy ≡ policy }
        ensures runs { (choices : List ℕ) → RunsChain (P.order result.policy) result.layout choices }
    {
        let DraftPlant { layout } = self;
        Plant { layout, policy }
    }

    // Enters a resource, and gives its number or why it may not enter.
    fn enter_resource(&mut self, policy: u32, preempt: u32) -> Outcome
        ensures outcome { result ≡ resource_comes_to self.old.layout policy preempt }
        ensures after { self.new.layout ≡ after_resource self.old.layout policy preempt }
        ensures few { resource_count self.old.layout ≤ most_resources }
    {
        let number = self.check_resource(policy, preempt)?;
        self.layout.resources.push(Resource { policy, preempt });
        Ok(number)
    }

    // Enters a task, and gives its number or why it may not enter.
    fn enter_task(&mut self, task: &TaskEntry) -> Outcome
        ensures outcome { result ≡ task_comes_to self.old.layout task.now }
        ensures after { self.new.layout ≡ after_task self.old.layout task.now }
        ensures few { task_count self.old.layout ≤ most_tasks }
    {
        let number = self.check_task(task)?;
        self.layout.tasks.push(entered(task));
        Ok(number)
    }

    // The number that the resource would have, or why it may not enter.
    fn check_resource(&self, policy: u32, preempt: u32) -> Outcome
        ensures { result ≡ resource_comes_to self.now.layout policy preempt }
    {
        let number = self.layout.resources.len();
        if self.layout.resources.is_full() {
            return Err(Refusal::NoRoom);
        }
        if Discipline::try_from(policy).is_err() {
            return Err(Refusal::FieldOutside(1));
        }
        if Preemption::try_from(preempt).is_err() {
            return Err(Refusal::FieldOutside(2));
        }
        Ok(number)
    }

    // The number that the task would have, or why it may not enter.
    fn check_task(&self, task: &TaskEntry) -> Outcome
        ensures { result ≡ task_comes_to self.now.layout task.now }
    {
        let number = self.layout.tasks.len();
        if self.layout.tasks.is_full() {
            return Err(Refusal::NoRoom);
        }
        if let Some(field) = field_outside(task) {
            return Err(Refusal::FieldOutside(field));
        }
        if task.resource as usize >= self.layout.resources.len() {
            return Err(Refusal::NotEntered(RESOURCE_FIELD));
        }
        if task.needs >> number > 0 {
            return Err(Refusal::NotEntered(NEEDS_FIELD));
        }
        match self.first_unlike(task) {
            Some(needed) => Err(Refusal::GapsUnlike(needed)),
            None => Ok(number),
        }
    }

    // The lowest needed task whose gaps are unlike the entry's.
    fn first_unlike(&self, task: &TaskEntry) -> Option<usize>
        ensures { result ≡ find (unlike self.now.layout task.now) (range_with_len 0 (task_count self.now.layout)) }
    {
        (0..self.layout.tasks.len()).find(|j| is_unlike(&self.layout, task, *j))
    }
}

// Of its own: where `field_outside` asks six ranges itself, the check does not prove what it returns.
fn is_in(low: u32, high: u32, x: u32) -> bool
    ensures { result ≡ is_within low high x }
{
    (low..=high).contains(&x)
}

// The first of the fields 1 to 7 that is outside its range.
fn field_outside(task: &TaskEntry) -> Option<u32>
    ensures { result ≡ outside_field task.now }
{
    if !is_in(0, MOST_TICKS, task.offset) {
        Some(1)
    } else if !is_in(1, MOST_TICKS, task.least) {
        Some(2)
    } else if !is_in(task.least, MOST_TICKS, task.greatest) {
        Some(3)
    } else if !is_in(1, MOST_TICKS, task.best) {
        Some(4)
    } else if !is_in(task.best, MOST_TICKS, task.worst) {
        Some(5)
    } else if !is_in(1, task.least, task.deadline) {
        Some(6)
    } else if priority(task.class).is_none() {
        Some(7)
    } else {
        None
    }
}

// Whether the entry needs task j and the gaps of the two are not all one number.
fn is_unlike(layout: &Layout, task: &TaskEntry, j: usize) -> bool
    requires { j < task_count layout.now }
    ensures { result ≡ unlike layout.now task.now j }
{
    let needed = layout.tasks[j];
    let gap = task.least;
    has_bit(task.needs, j)
        && !(task.greatest == gap && needed.least == gap && needed.greatest == gap)
}

// The task that an entry with a class stands for.
fn entered(task: &TaskEntry) -> Task
    requires { task.now.class < classes }
    ensures { result ≡ entered task.now }
{
    Task {
        offset: task.offset,
        least: task.least,
        greatest: task.greatest,
        best: task.best,
        worst: task.worst,
        deadline: task.deadline,
        priority: priority(task.class).unwrap(),
        resource: task.resource,
        needs: task.needs,
    }
}
