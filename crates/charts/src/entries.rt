// What has been entered into a chart.
ghost use Rattle.std.specs.Prelude.{◌≡◌, ◌≤◌};
ghost use Rattle.charts.specs.Entries.{most_inputs, begun as first_entries, add_step as step_entry, with_step as step_added, add_input as input_entry, with_input as input_added, set_lead as lead_entry, with_lead as lead_added};

use arrayvec::ArrayVec;
use systems::outcome::{Outcome, Refusal};

// The most steps and inputs of a chart, those it begins with included.
pub(crate) const MOST_STEPS: usize = 64;

pub(crate) const MOST_INPUTS: usize = 8;

// One step: whether it is forbidden, so that no run may come to it, and the step to which each input leads from it. A
// flag is plainest here: it makes no other field good or not.
#[derive(Clone, Copy, Default)]
pub(crate) struct Step {
    pub(crate) forbidden: bool,
    pub(crate) leads: [u8; MOST_INPUTS],
}

// The steps entered, and how many inputs are: one count for all steps, each of which has a lead for every input.
#[derive(Drop)]
pub(crate) struct Entries {
    pub(crate) steps: ArrayVec<Step, MOST_STEPS>,
    pub(crate) inputs: usize,
}

impl Entries {
    // Step 0, not forbidden, and input 0, which leads from it to itself.
    pub(crate) fn begun() -> Entries
        ensures { result ≡ first_entries }
    {
        let mut steps = ArrayVec::new();
        steps.push(Step {
            forbidden: false,
            leads: [0; MOST_INPUTS],
        });
        Entries { steps, inputs: 1 }
    }

    // Enters a step, from which every input leads to the step itself. A number, as any but 0 and 1 is refused.
    pub(crate) fn add_step(&mut self, forbidden: u32) -> Outcome
        ensures outcome { result ≡ step_entry self.old forbidden }
        ensures after { self.new ≡ step_added self.old forbidden }
    {
        if self.steps.is_full() {
            return Err(Refusal::NoRoom);
        }
        if forbidden > 1 {
            return Err(Refusal::FieldOutside(1));
        }
        let step = self.steps.len();
        self.steps.push(Step {
            forbidden: forbidden == 1,
            leads: [step as u8; MOST_INPUTS],
        });
        Ok(step)
    }

    // Enters an input; every step leads by it to itself already.
    pub(crate) fn add_input(&mut self) -> Outcome
        ensures outcome { result ≡ input_entry self.old }
        ensures after { self.new ≡ input_added self.old }
    {
        let input = self.inputs;
        if input >= MOST_INPUTS {
            return Err(Refusal::NoRoom);
        }
        self.inputs = input + 1;
        Ok(input)
    }

    // Sets the lead from a step by an input.
    pub(crate) fn set_lead(&mut self, step: u32, input: u32, next: u32) -> Outcome
        requires { self.old.inputs ≤ most_inputs }
        ensures outcome { result ≡ lead_entry self.old step input next }
        ensures after { self.new ≡ lead_added self.old step input next }
    {
        if step as usize >= self.steps.len() {
            return Err(Refusal::FieldOutside(1));
        }
        if input as usize >= self.inputs {
            return Err(Refusal::FieldOutside(2));
        }
        if next as usize >= self.steps.len() {
            return Err(Refusal::FieldOutside(3));
        }
        self.steps[step as usize].leads[input as usize] = next as u8;
        Ok(0)
    }
}
