// The calls by which a chart is entered, and fixing it.
ghost use Rattle.std.specs.Prelude.{◌≡◌};
ghost use Rattle.systems.specs.Outcomes.{answer_of};
ghost use Rattle.charts.specs.Entries.{begun, add_step as step_entry, with_step, add_input as input_entry, with_input, set_lead as lead_entry, with_lead, step_count as steps_entered, Home};
ghost use Rattle.charts.specs.Leads.{FollowsLeads};

use super::DraftChart;
use crate::chart::Chart;
use crate::entries::Entries;
use systems::outcome::{Answer, answer};

impl DraftChart {
    // A draft with step 0, not forbidden, and input 0, which leads from it to itself.
    pub fn new() -> DraftChart
        ensures { result.entries ≡ begun }
    {
        DraftChart {
            entries: Entries::begun(),
        }
    }

    // Enters a step, forbidden (1) or not (0); the value is its number. Every input leads from it to itself. A number
    // and no `bool`, since any other number is refused as a field outside its range.
    pub fn add_step(&mut self, forbidden: u32) -> Answer
        ensures answer { result ≡ answer_of (step_entry self.old.entries forbidden) }
        ensures after { self.new.entries ≡ with_step self.old.entries forbidden }
    {
        answer(self.entries.add_step(forbidden))
    }

    // Enters an input; the value is its number. It leads from every step to itself.
    pub fn add_input(&mut self) -> Answer
        ensures answer { result ≡ answer_of (input_entry self.old.entries) }
        ensures after { self.new.entries ≡ with_input self.old.entries }
        ensures home { Home self.old.entries self.new.entries }
    {
        answer(self.entries.add_input())
    }

    // Sets where an input leads from a step; the value is 0.
    pub fn set_lead(&mut self, step: u32, input: u32, next: u32) -> Answer
        ensures answer { result ≡ answer_of (lead_entry self.old.entries step input next) }
        ensures after { self.new.entries ≡ with_lead self.old.entries step input next }
    {
        answer(self.entries.set_lead(step, input, next))
    }

    // How many steps are entered.
    pub fn step_count(&self) -> usize
        ensures { result ≡ steps_entered self.now.entries }
    {
        self.entries.steps.len()
    }

    // Fixes the chart, which holds exactly the draft's entries and follows their leads; the draft is then gone.
    pub fn fix(self) -> Chart
        ensures entries { result.entries ≡ self.entries }
        ensures leads { FollowsLeads result.entries }
    {
        Chart {
            entries: self.entries,
        }
    }
}
