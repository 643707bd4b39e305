// One tick, rule by rule, under any policy.
ghost use Rattle.std.specs.Prelude.{◌≡◌, ℕ, ◌^◌, ◌<◌, Bool, cond};
ghost use Rattle.std.specs.Borrow.{MutBor};
ghost use Rattle.plants.specs.Layouts.{task_count};
ghost use Rattle.plants.specs.declared.state.Record.{Record};
ghost use Rattle.plants.specs.declared.state.PlantState.{PlantState};
ghost use Rattle.plants.specs.Limits.{most_tasks};
ghost use Rattle.plants.specs.Below.{all_below};
ghost use Rattle.plants.specs.Records.{at, each, Low};
ghost use Rattle.plants.specs.Tick.{TestsBy, ChangesBy, release_in, release_obeys, after_releases, met_at, all_met, comes_ready, after_readying, claim_of, rivals, goes_before, ahead_of, task_runs, after_growth, finish_in, finish_obeys, after_finishes, claiming, state_bad, choice_legal, next_records};

use crate::bits::has_bit;
use crate::layout::{MOST_TASKS, Task};
use crate::plant::Plant;
use crate::state::{Phase, PlantState, Record};
use crate::states::{fits, is_late};
use policies::policy::{Claim, Policy};

// Rule 1: whether a task may be released, or need not be.
pub(crate) fn may_release(task: &Task, r: &Record, released: bool) -> bool
    ensures { result ≡ release_in task.now r.now.phase r.now.since released }
{
    match r.phase {
        Phase::Before => released == (r.since == task.offset),
        Phase::Done => {
            if released {
                r.since >= task.least
            } else {
                r.since != task.greatest
            }
        }
        _ => !released,
    }
}

// Whether task j is done, if it is needed.
#[tactic(auto, unfolding(crate::specs::Tick::met_at))]
fn is_met(needs: u32, state: &PlantState, j: usize) -> bool
    requires { j < most_tasks }
    ensures { result ≡ met_at needs state.now.records j }
{
    !has_bit(needs, j) || state.records[j].phase == Phase::Done
}

// Whether every needed task is done.
fn all_met(needs: u32, state: &PlantState) -> bool
    ensures { result ≡ all_met needs state.now.records }
{
    (0..MOST_TASKS).all(|j| is_met(needs, state, j))
}

// Rule 5: whether a task that runs or does not may finish, or need not; `run` is what its run is after growth, if it
// runs.
fn may_finish(task: &Task, running: bool, run: u32, finished: bool) -> bool
    ensures { result ≡ finish_in task.now running run finished }
{
    if finished {
        running && run >= task.best
    } else {
        !(running && run == task.worst)
    }
}

// The bound of a task's number is a clause of each function, since the rules count with numbers. A choice is no part
// of a state: in a tick one choice meets several.
impl<P: Policy> Plant<P> {
    // How many choices there are: a release bit and a finish bit for each task.
    pub(crate) fn choices(&self) -> u32
        ensures { result ≡ 4 ^ task_count self.now.layout }
    {
        4u32.pow(self.layout.tasks.len() as u32)
    }

    // Whether the release bit of task i obeys.
    #[tactic(auto, unfolding(crate::specs::Tick::release_obeys))]
    fn release_obeys(&self, state: &PlantState, choice: u32, i: usize) -> bool
        requires { i < task_count self.now.layout }
        ensures { result ≡ release_obeys self.now.layout choice state.now.records i }
    {
        may_release(&self.layout.tasks[i], &state.records[i], has_bit(choice, i))
    }

    // Whether every release bit obeys.
    fn releases_obey(&self, state: &PlantState, choice: u32) -> bool
        ensures { result ≡ all_below (release_obeys self.now.layout choice state.now.records) (task_count self.now.layout) }
    {
        (0..self.layout.tasks.len()).all(|i| self.release_obeys(state, choice, i))
    }

    // The records of the tasks that pass the test, each changed in turn. A loop over numbers: one record at a time is
    // changed through &mut, by a rule of the project.
    fn changed<T: Fn(usize) -> bool, C: Fn(&mut PlantState, usize)>(
        &self,
        state: PlantState,
        test: T,
        change: C,
    ) -> PlantState
        requires tests { (i : ℕ) → i < task_count self.now.layout → T.pre test i }
        requires changes { (s : MutBor PlantState) (i : ℕ) → i < most_tasks → C.pre change s i }
        ensures { (p : ℕ → Bool) (f : Record → Record) → TestsBy (T.post test) (task_count self.now.layout) p → ChangesBy (λ s i t. C.post change s i tt t) f → result.records ≡ each (task_count self.now.layout) (λ i r. cond (p i) (f r) r) state.records }
    {
        let mut out = state;
        for i in 0..self.layout.tasks.len() {
            if test(i) {
                change(&mut out, i);
            }
        }
        out
    }

    // Rule 1: the state with the tasks released whose release bits are 1.
    fn after_releases(&self, state: PlantState, choice: u32) -> PlantState
        ensures { result.records ≡ after_releases self.now.layout choice state.records }
    {
        self.changed(state, |i| has_bit(choice, i), PlantState::release)
    }

    // Rule 2: whether task i becomes ready.
    #[tactic(auto, unfolding(crate::specs::Tick::comes_ready))]
    fn comes_ready(&self, state: &PlantState, i: usize) -> bool
        requires { i < task_count self.now.layout }
        ensures { result ≡ comes_ready self.now.layout state.now.records i }
    {
        state.records[i].phase == Phase::Held && all_met(self.layout.tasks[i].needs, state)
    }

    // The state with the tasks ready that rule 2 makes ready.
    fn after_readying(&self, state: PlantState) -> PlantState
        ensures { result.records ≡ after_readying self.now.layout state.records }
    {
        self.changed(state, |i| self.comes_ready(&state, i), PlantState::ready)
    }

    // The state after rule 2, in which tasks claim their resources.
    pub(crate) fn claiming(&self, state: PlantState, choice: u32) -> PlantState
        ensures { result.records ≡ claiming self.now.layout choice state.records }
    {
        self.after_readying(self.after_releases(state, choice))
    }

    // What task i claims its resource with.
    fn claim_of(&self, state: &PlantState, i: usize) -> Claim
        requires { i < task_count self.now.layout }
        ensures { result ≡ claim_of self.now.layout state.now.records i }
    {
        let task = self.layout.tasks[i];
        let record = state.records[i];
        Claim {
            task: i as u32,
            priority: task.priority,
            waited: record.waited,
            left: task.deadline.saturating_sub(record.since),
            run: record.run,
        }
    }

    // Whether task j is another than i, ready and on the same resource.
    fn are_rivals(&self, state: &PlantState, i: usize, j: usize) -> bool
        requires { (i < task_count self.now.layout) × (j < task_count self.now.layout) }
        ensures { result ≡ rivals self.now.layout state.now.records i j }
    {
        i != j
            && state.records[j].phase == Phase::Ready
            && self.layout.tasks[i].resource == self.layout.tasks[j].resource
    }

    // Whether task i goes before task j by the policy of its resource.
    fn goes_before(&self, state: &PlantState, i: usize, j: usize) -> bool
        requires { (i < task_count self.now.layout) × (j < task_count self.now.layout) }
        ensures { result ≡ goes_before (P.order self.now.policy) self.now.layout state.now.records i j }
    {
        let resource = self.layout.resources[self.layout.tasks[i].resource as usize];
        let mine = self.claim_of(state, i);
        let theirs = self.claim_of(state, j);
        self.policy
            .before(resource.policy, resource.preempt, &mine, &theirs)
    }

    // Whether task i goes before task j, or j is no rival.
    #[tactic(auto, unfolding(crate::specs::Tick::ahead_of))]
    fn is_ahead(&self, state: &PlantState, i: usize, j: usize) -> bool
        requires { (i < task_count self.now.layout) × (j < task_count self.now.layout) }
        ensures { result ≡ ahead_of (P.order self.now.policy) self.now.layout state.now.records i j }
    {
        !self.are_rivals(state, i, j) || self.goes_before(state, i, j)
    }

    // Whether task i goes before every rival.
    fn is_ahead_of_all(&self, state: &PlantState, i: usize) -> bool
        requires { i < task_count self.now.layout }
        ensures { result ≡ all_below (ahead_of (P.order self.now.policy) self.now.layout state.now.records i) (task_count self.now.layout) }
    {
        (0..self.layout.tasks.len()).all(|j| self.is_ahead(state, i, j))
    }

    // Rule 3: whether task i runs.
    #[tactic(auto, unfolding(crate::specs::Tick::task_runs))]
    pub(crate) fn runs(&self, state: &PlantState, i: usize) -> bool
        requires { i < task_count self.now.layout }
        ensures { result ≡ task_runs (P.order self.now.policy) self.now.layout state.now.records i }
    {
        state.records[i].phase == Phase::Ready && self.is_ahead_of_all(state, i)
    }

    // Rule 4: each task's record changes, whether the task runs or not. A loop of its own: each record must have room,
    // which `changed` cannot promise to its closure.
    fn after_growth(&self, state: PlantState) -> PlantState
        requires { (k : ℕ) → k < task_count self.now.layout → Low (at state.records k) }
        ensures { result.records ≡ after_growth (P.order self.now.policy) self.now.layout state.records }
    {
        let mut out = state;
        for i in 0..self.layout.tasks.len() {
            let running = self.runs(&state, i);
            out.grow(i, running);
        }
        out
    }

    // Whether the finish bit of task i obeys, where `state` is the one after rule 2.
    fn finish_obeys(&self, state: &PlantState, choice: u32, i: usize) -> bool
        requires { i < task_count self.now.layout }
        ensures { result ≡ finish_obeys (P.order self.now.policy) self.now.layout choice state.now.records i }
    {
        let task = &self.layout.tasks[i];
        let finished = has_bit(choice, self.layout.tasks.len() + i);
        // A saturated sum is past every best and worst time, as the whole sum is.
        let run = state.records[i].run.saturating_add(1);
        // Short of its worst time a task need not finish, whether it runs or not.
        if !finished && run != task.worst {
            return true;
        }
        may_finish(task, self.runs(state, i), run, finished)
    }

    // Whether every finish bit obeys, where `state` is the one after rule 2.
    pub(crate) fn finishes_obey(&self, state: &PlantState, choice: u32) -> bool
        ensures { result ≡ all_below (finish_obeys (P.order self.now.policy) self.now.layout choice state.now.records) (task_count self.now.layout) }
    {
        (0..self.layout.tasks.len()).all(|i| self.finish_obeys(state, choice, i))
    }

    // The state with the tasks done whose finish bits are 1.
    fn after_finishes(&self, state: PlantState, choice: u32) -> PlantState
        ensures { result.records ≡ after_finishes self.now.layout choice state.records }
    {
        let count = self.layout.tasks.len();
        self.changed(state, |i| has_bit(choice, count + i), PlantState::finish)
    }

    // Whether a task is late. By number, as the rules count: for a zip of tasks and records the check found no proof.
    #[tactic(auto, unfolding(crate::specs::Tick::late_at))]
    pub(crate) fn has_late(&self, state: &PlantState) -> bool
        ensures { result ≡ state_bad self.now.layout state.now.records }
    {
        (0..self.layout.tasks.len()).any(|i| is_late(&self.layout.tasks[i], &state.records[i]))
    }

    // Whether the choice is legal. The release bits are tested first, since most choices break the rules there, and
    // before anything of the tick is computed.
    pub(crate) fn allows(&self, state: &PlantState, choice: u32) -> bool
        ensures { result ≡ choice_legal (P.order self.now.policy) self.now.layout choice state.now.records }
    {
        if choice >= self.choices() || !self.releases_obey(state, choice) {
            return false;
        }
        if !fits(&self.layout, state) || self.has_late(state) {
            return false;
        }
        self.finishes_obey(&self.claiming(*state, choice), choice)
    }

    // The state after all five rules where the choice is legal, and the same state otherwise.
    pub(crate) fn after_tick(&self, state: PlantState, choice: u32) -> PlantState
        ensures { result.records ≡ next_records (P.order self.now.policy) self.now.layout choice state.records }
    {
        if !self.allows(&state, choice) {
            return state;
        }
        let claims = self.claiming(state, choice);
        self.after_finishes(self.after_growth(claims), choice)
    }
}
