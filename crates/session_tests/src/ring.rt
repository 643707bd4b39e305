// A system for the tests: states 0 to a last one, one choice, which leads round them.
ghost use Rattle.session_tests.specs.Rings.{ring_meaning};
ghost use Rattle.std.proofs.Common.{rules};

use systems::system::System;

#[derive(Clone, Copy)]
pub struct Ring {
    pub last: u32,
}

impl System for Ring {
    type State = u32;

    ghost meaning = { λ x. ring_meaning x.last };

    ghost lawful = { Prim.search rules };

    fn first(&self) -> u32 {
        0
    }

    fn count(&self) -> u32 {
        1
    }

    fn fits(&self, state: &u32) -> bool {
        *state <= self.last
    }

    fn is_bad(&self, _state: &u32) -> bool {
        false
    }

    fn is_legal(&self, state: &u32, choice: u32) -> bool {
        choice < 1 && *state <= self.last
    }

    fn next(&self, state: &u32, choice: u32) -> u32 {
        if !self.is_legal(state, choice) {
            return *state;
        }
        if *state < self.last { *state + 1 } else { 0 }
    }

    fn same(&self, one: &u32, other: &u32) -> bool {
        *one == *other
    }
}
