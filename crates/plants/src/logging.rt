// A plant's state as a line: four numbers for each entered task, in the order of the tasks.
ghost use Rattle.std.specs.Prelude.{◌≡◌, ◌≤◌, length, map};
ghost use Rattle.systems.specs.Outcomes.{answer_of};
ghost use Rattle.lines.specs.Writing.{writing, written};
ghost use Rattle.lines.specs.declared.tag.Tag.TheVariants.{Offr};
ghost use Rattle.plants.specs.Layouts.{task_count};
ghost use Rattle.plants.specs.Limits.{most_tasks};
ghost use Rattle.plants.specs.Numbers.{record_numbers as numbers_in, record_in, state_numbers, state_of};
ghost use Rattle.plants.specs.Entered.{valid_parts};
ghost use Rattle.plants.specs.Numbered.{plant_numbered};

use crate::layout::MOST_TASKS;
use crate::plant::Plant;
use crate::state::{Phase, PlantState, Record};
use crate::states::first;
use lines::loggable::Loggable;
use lines::tag::Tag;
use lines::write::write as write_line;
use policies::policy::Policy;
use systems::outcome::Answer;

// How many numbers a task has.
const PER_TASK: usize = 4;

// The four numbers of a record.
fn record_numbers(r: Record) -> [u32; PER_TASK]
    ensures { result ≡ numbers_in r }
{
    [u32::from(r.phase), r.since, r.run, r.waited]
}

// The four numbers of each record.
fn numbers_of(state: &PlantState) -> [[u32; PER_TASK]; MOST_TASKS]
    ensures { result ≡ map numbers_in state.now.records }
{
    state.records.map(record_numbers)
}

// Writes the first n records as a line.
#[tactic(auto, using(crate::proofs::Fours::flattened))]
fn write_records(state: &PlantState, n: usize, out: &mut [u8]) -> Answer
    requires { n ≤ most_tasks }
    ensures answer { result ≡ answer_of (writing Offr (state_numbers n state.now.records) (length out.old)) }
    ensures after { out.new ≡ written Offr (state_numbers n state.now.records) out.old }
{
    write_line(Tag::Offr, numbers_of(state)[..n].as_flattened(), out)
}

// The record that four numbers are, if the first is that of a phase.
fn record_in(four: &[u32; PER_TASK]) -> Option<Record>
    ensures { result ≡ record_in four.now }
{
    let [number, since, run, waited] = *four;
    let phase = Phase::try_from(number).ok()?;
    Some(Record {
        phase,
        since,
        run,
        waited,
    })
}

// The state of n tasks that numbers are, if they are one: the other records are four zeros.
fn state_in(given: &[u32], n: usize) -> Option<PlantState>
    requires { n ≤ most_tasks }
    ensures { result ≡ state_of n given.now }
{
    let (fours, rest) = given.as_chunks::<PER_TASK>();
    if fours.len() != n || !rest.is_empty() {
        return None;
    }
    let mut state = first();
    // By index: of what is written through an adapter of iter_mut a proof knows nothing.
    for (i, four) in fours.iter().enumerate() {
        state.records[i] = record_in(four)?;
    }
    Some(state)
}

impl<P: Policy> Loggable for Plant<P> {
    ghost numbers = { λ p s. state_numbers (task_count p.layout) s.records };

    ghost restored = { λ p ns. state_of (task_count p.layout) ns };

    ghost numbered = { λ x. plant_numbered (P.Policy.order x.policy) x.layout (valid_parts x.layout x.valid) };

    fn write(&self, state: &PlantState, out: &mut [u8]) -> Answer {
        write_records(state, self.layout.tasks.len(), out)
    }

    fn state_of(&self, given: &[u32]) -> Option<PlantState> {
        state_in(given, self.layout.tasks.len())
    }
}
