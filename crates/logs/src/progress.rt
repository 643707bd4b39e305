// How far an input is answered: its lines are read one after another, and each answer is added to the log.
ghost use Rattle.std.specs.Prelude.{◌≡◌, ◌≤◌, true, [], ◌∷◌, ◌++◌, length, take, OnOk, IfSome, MatchOption};
ghost use Rattle.lines.specs.Spelling.{most};
ghost use Rattle.lines.specs.declared.tag.Tag.TheVariants.{Offr};
ghost use Rattle.logs.specs.Answers.{Narrow, answered, line_spelled};
ghost use Rattle.logs.specs.Pieces.{lines_in, lines_ahead};

use lines::line::{LONGEST, Line};
use lines::loggable::Loggable;
use lines::reader::LineReader;
use lines::tag::Tag;
use lines::write::write;
use std::alloc::{AllocError, Global};
use systems::outcome::Answer;

// The reader of the input, and the log of what it has read.
#[derive(Drop)]
pub(crate) struct Progress<'i> {
    pub(crate) reader: LineReader<'i>,
    pub(crate) log: Vec<u8>,
}

// That a call keeps the reader or the log is a clause of each, as it relates two moments.
impl<'i> Progress<'i> {
    // No line is read yet.
    pub(crate) fn new(heap: Global, input: &'i [u8]) -> Progress<'i>
        ensures ahead { lines_ahead result.reader ≡ lines_in input.now }
        ensures log { result.log.items ≡ [] }
    {
        Progress {
            reader: LineReader::new(input),
            log: Vec::new(heap),
        }
    }

    // The next line, unless none is left; what is not a line counts as one, with the tag LINE.
    pub(crate) fn next_line(&mut self) -> Option<Line>
        ensures lines { MatchOption result (lines_ahead self.old.reader ≡ []) (λ line. lines_ahead self.old.reader ≡ line ∷ lines_ahead self.new.reader) }
        ensures few { IfSome result (λ line. length line.1 ≤ most) }
        ensures log { self.new.log ≡ self.old.log }
    {
        if self.reader.at_end() {
            return None;
        }
        let (_, line) = self.reader.next_line();
        Some(line)
    }

    // Adds an answer.
    pub(crate) fn note(&mut self, tag: Tag, answer: Answer) -> Result<(), AllocError>
        requires { Narrow answer }
        ensures log { OnOk result (self.new.log.items ≡ self.old.log.items ++ line_spelled (answered tag answer)) }
        ensures reader { self.new.reader ≡ self.old.reader }
    {
        let (number, value) = answer;
        // a buffer and a length: writing fills lent memory and answers how much
        let mut buffer = [0; LONGEST];
        let (_, count) = write(tag, &[number, value as u32], &mut buffer);
        self.append(&buffer[..count])
    }

    // Adds the line of a state that fits. Apart from `note`, since here the system writes the line.
    pub(crate) fn note_state<Y: Loggable>(
        &mut self,
        system: &Y,
        state: &Y::State,
    ) -> Result<(), AllocError>
        requires { (Y.meaning system.now).fits state.now ≡ true }
        ensures log { OnOk result (self.new.log.items ≡ self.old.log.items ++ line_spelled (Offr, Y.numbers system.now state.now)) }
        ensures reader { self.new.reader ≡ self.old.reader }
    {
        // a buffer and a length: writing fills lent memory and answers how much
        let mut buffer = [0; LONGEST];
        let (_, count) = system.write(state, &mut buffer);
        self.append(&buffer[..count])
    }

    // Adds the bytes of a line.
    fn append(&mut self, line: &[u8]) -> Result<(), AllocError>
        ensures log { OnOk result (self.new.log.items ≡ self.old.log.items ++ line.now) }
        ensures reader { self.new.reader ≡ self.old.reader }
    {
        self.log.extend_from_slice(line)?;
        Ok(())
    }
}
