// Systems whose states can be written as lines.
ghost use Rattle.std.specs.Prelude.{◌≡◌, ℕ, ◌≤◌, true, List, length, Some, Option as Maybe};
ghost use Rattle.systems.specs.Outcomes.{answer_of};
ghost use Rattle.lines.specs.declared.tag.Tag.TheVariants.{Offr};
ghost use Rattle.lines.specs.Spelling.{most, longest, Begins};
ghost use Rattle.lines.specs.Writing.{writing, written};
ghost use Rattle.lines.specs.Logging.{Numbered, StateLine};

use crate::line::Line;
use crate::reader::LineReader;
use systems::outcome::Answer;
use systems::system::System;

pub trait Loggable: System {
    // The numbers of a state's line, and the state of a line's numbers.
    ghost numbers: { Self → Self.State → List ℕ };

    ghost restored: { Self → List ℕ → Maybe Self.State };

    // Writes a state as a line at the front of the buffer, and answers its length.
    fn write(&self, state: &Self::State, out: &mut [u8]) -> Answer
        ensures answer { result ≡ answer_of (writing Offr (numbers self.now state.now) (length out.old)) }
        ensures after { out.new ≡ written Offr (numbers self.now state.now) out.old }
        ensures back { (Self.System.meaning self.now).fits state.now ≡ true → result.0 ≡ 0 → StateLine (restored self.now) state.now out.new };

    // The state that the numbers of a line are.
    fn state_of(&self, given: &[u32]) -> Option<Self::State>
        ensures { result ≡ restored self.now given.now };

    ghost numbered: { (x : Self) → Numbered (Self.System.meaning x) (numbers x) (restored x) };
}

// What the numbers of a line are restored to.
fn state_in<L: Loggable>(system: &L, line: &Line) -> Option<L::State>
    ensures { result ≡ L.Loggable.restored system.now line.now.1 }
{
    system.state_of(line.numbers())
}

// Reads a line and decodes its numbers: what the numbers of a state's line are restored to, if the bytes begin with one.
fn decoded<L: Loggable>(system: &L, bytes: &[u8]) -> Option<L::State>
    ensures { (ns : List ℕ) → Begins bytes.now Offr ns → result ≡ L.Loggable.restored system.now ns }
{
    let mut reader = LineReader::new(bytes);
    let (_, line) = reader.read();
    state_in(system, &line)
}

// Writes a state as a line, reads the line and decodes it: a state that fits comes back, and a buffer as long as the
// longest line has room for it.
pub fn reread<L: Loggable>(
    system: &L,
    state: &L::State,
    buffer: &mut [u8],
) -> (Answer, Option<L::State>)
    ensures answer { result.0 ≡ answer_of (writing Offr (L.Loggable.numbers system.now state.now) (length buffer.old)) }
    ensures after { buffer.new ≡ written Offr (L.Loggable.numbers system.now state.now) buffer.old }
    ensures accepted { result.0.0 ≡ 0 → length (L.Loggable.numbers system.now state.now) ≤ most → result.1 ≡ L.Loggable.restored system.now (L.Loggable.numbers system.now state.now) }
    ensures room { (L.System.meaning system.now).fits state.now ≡ true → longest ≤ length buffer.old → result.0.0 ≡ 0 }
    ensures same { (L.System.meaning system.now).fits state.now ≡ true → result.0.0 ≡ 0 → result.1 ≡ Some state.now }
{
    let answer = system.write(state, buffer);
    (answer, decoded(system, buffer))
}
