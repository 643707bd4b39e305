// The task that runs on a resource.
// The bound of a task's number is a clause of each function, since the rules count with numbers.
ghost use Rattle.std.specs.Prelude.{◌≡◌, ◌<◌};
ghost use Rattle.plants.specs.Layouts.{task_count};
ghost use Rattle.plants.specs.Below.{first_below};
ghost use Rattle.plants.specs.Tick.{runs_on};
ghost use Rattle.plants.specs.Rules.{claiming_state, NamesRunning};

use crate::plant::Plant;
use crate::state::PlantState;
use policies::policy::Policy;

impl<P: Policy> Plant<P> {
    // How many tasks there are.
    pub fn task_count(&self) -> usize
        ensures { result ≡ task_count self.now.layout }
    {
        self.layout.tasks.len()
    }

    // Whether task i is on the resource and runs, where `state` is the one after rule 2.
    fn runs_on(&self, state: &PlantState, resource: u32, i: usize) -> bool
        requires { i < task_count self.now.layout }
        ensures { result ≡ runs_on (P.order self.now.policy) self.now.layout state.now.records resource i }
    {
        self.layout.tasks[i].resource == resource && self.runs(state, i)
    }

    // The first task that is on the resource and runs, where `state` is the one after rule 2.
    fn first_running(&self, state: &PlantState, resource: u32) -> Option<usize>
        ensures { result ≡ first_below (runs_on (P.order self.now.policy) self.now.layout state.now.records resource) (task_count self.now.layout) }
    {
        (0..self.layout.tasks.len()).find(|i| self.runs_on(state, resource, *i))
    }

    // The task that runs on a resource in the tick by a choice: the one such ready task, and none where no task on it
    // is ready.
    pub fn running(&self, state: &PlantState, choice: u32, resource: u32) -> Option<usize>
        ensures { NamesRunning (P.order self.now.policy) self.now.layout (claiming_state self.now.layout choice state.now) resource result }
    {
        self.first_running(&self.claiming(*state, choice), resource)
    }
}
