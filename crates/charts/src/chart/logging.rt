// A chart's state as a line: its one number is the step.
ghost use Rattle.std.specs.Prelude.{◌≡◌, length};
ghost use Rattle.systems.specs.Outcomes.{answer_of};
ghost use Rattle.lines.specs.Writing.{writing, written};
ghost use Rattle.lines.specs.declared.tag.Tag.TheVariants.{Offr};
ghost use Rattle.charts.specs.Numbers.{step_numbers, step_of};
ghost use Rattle.charts.specs.Numbered.{chart_numbered};

use super::Chart;
use lines::loggable::Loggable;
use lines::tag::Tag;
use lines::write::write as write_line;
use systems::outcome::Answer;

// Writes a step as a line.
fn write_step(step: u32, out: &mut [u8]) -> Answer
    ensures answer { result ≡ answer_of (writing Offr (step_numbers step) (length out.old)) }
    ensures after { out.new ≡ written Offr (step_numbers step) out.old }
{
    write_line(Tag::Offr, &[step], out)
}

// The step that numbers are, if they are one number.
fn step_in(given: &[u32]) -> Option<u32>
    ensures { result ≡ step_of given.now }
{
    match given {
        [step] => Some(*step),
        _ => None,
    }
}

impl Loggable for Chart {
    ghost numbers = { λ _ step. step_numbers step };

    ghost restored = { λ _ ns. step_of ns };

    ghost numbered = { λ x. chart_numbered x.entries x.valid.few_steps };

    fn write(&self, state: &u32, out: &mut [u8]) -> Answer {
        write_step(*state, out)
    }

    fn state_of(&self, given: &[u32]) -> Option<u32> {
        step_in(given)
    }
}
