// A plant is a system, under any policy.
ghost use Rattle.std.specs.Prelude.{◌≡◌, Decides};
ghost use Rattle.systems.specs.Lowest.{LowestFrom};
ghost use Rattle.plants.specs.Meanings.{plant_meaning};
ghost use Rattle.plants.specs.Replies.{LegalByRules, NextByRules};
ghost use Rattle.plants.specs.Rules.{Fits, Bad};
ghost use Rattle.plants.specs.Tick.{state_fits, state_bad, choice_legal, next_records};
ghost use Rattle.plants.specs.Entered.{valid_parts};
ghost use Rattle.plants.specs.PlantLaws.{plant_laws};

use crate::plant::Plant;
use crate::state::PlantState;
use crate::states;
use policies::policy::Policy;
use systems::system::System;

impl<P: Policy> System for Plant<P> {
    type State = PlantState;

    ghost meaning = { λ p. plant_meaning (P.Policy.order p.policy) p.layout };

    ghost lawful = { λ x. plant_laws (P.Policy.order x.policy) x.layout (valid_parts x.layout x.valid) };

    fn first(&self) -> PlantState {
        states::first()
    }

    fn count(&self) -> u32 {
        self.choices()
    }

    fn fits(&self, state: &PlantState) -> bool
        ensures reply { result ≡ state_fits self.now.layout state.now.records }
        ensures rules { Decides result (Fits self.now.layout state.now) }
    {
        states::fits(&self.layout, state)
    }

    fn is_bad(&self, state: &PlantState) -> bool
        ensures reply { result ≡ state_bad self.now.layout state.now.records }
        ensures rules { Decides result (Bad self.now.layout state.now) }
    {
        self.has_late(state)
    }

    fn is_legal(&self, state: &PlantState, choice: u32) -> bool
        ensures reply { result ≡ choice_legal (P.Policy.order self.now.policy) self.now.layout choice state.now.records }
        ensures rules { LegalByRules (P.Policy.order self.now.policy) self.now.layout choice state.now result }
    {
        self.allows(state, choice)
    }

    fn lowest_legal(&self, state: &PlantState, start: u32) -> Option<u32>
        ensures { LowestFrom (λ c. choice_legal (P.Policy.order self.now.policy) self.now.layout c state.now.records) start result }
    {
        self.lowest_allowed(state, start)
    }

    fn next(&self, state: &PlantState, choice: u32) -> PlantState
        ensures reply { result.records ≡ next_records (P.Policy.order self.now.policy) self.now.layout choice state.now.records }
        ensures rules { NextByRules (P.Policy.order self.now.policy) self.now.layout choice state.now result }
    {
        self.after_tick(*state, choice)
    }

    // Stops at the first difference.
    fn same(&self, one: &PlantState, other: &PlantState) -> bool {
        one == other
    }
}
