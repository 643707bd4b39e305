// A chart as a system: its states are its steps, and its choices its inputs.
ghost use Rattle.charts.specs.Charts.{chart_meaning};
ghost use Rattle.std.proofs.Common.{rules};

use super::Chart;
use systems::system::System;

impl System for Chart {
    type State = u32;

    ghost meaning = { λ x. chart_meaning x.entries };

    ghost lawful = { Prim.search rules };

    fn first(&self) -> u32 {
        0
    }

    fn count(&self) -> u32 {
        self.entries.inputs as u32
    }

    fn fits(&self, state: &u32) -> bool {
        (*state as usize) < self.entries.steps.len()
    }

    fn is_bad(&self, state: &u32) -> bool {
        self.fits(state) && self.entries.steps[*state as usize].forbidden
    }

    fn is_legal(&self, state: &u32, choice: u32) -> bool {
        (choice as usize) < self.entries.inputs && self.fits(state) && !self.is_bad(state)
    }

    fn next(&self, state: &u32, choice: u32) -> u32 {
        if self.is_legal(state, choice) {
            u32::from(self.entries.steps[*state as usize].leads[choice as usize])
        } else {
            *state
        }
    }

    fn same(&self, one: &u32, other: &u32) -> bool {
        *one == *other
    }
}
