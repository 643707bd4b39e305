// The reader's calls.
ghost use Rattle.std.specs.Prelude.{◌≡◌, ◌≤◌, length, Decides, Ok, Some, None, position, ◌==◌, if◌then◌else◌};
ghost use Rattle.systems.specs.Outcomes.{answer_of};
ghost use Rattle.lines.specs.Spelling.{feed, OneSpelling};
ghost use Rattle.lines.specs.Reading.{input_of, ahead, Reads, piece, past_piece, line_of, Hears, LineExact};

use super::{Guard, LineReader};
use crate::form::{numbers_first, tag_first};
use crate::line::Line;
use systems::outcome::{Answer, Refusal, answer};

// Where the first line feed is.
fn feed_at(bytes: &[u8]) -> Option<usize>
    ensures { result ≡ position (λ b. b == feed) bytes.now }
{
    bytes.iter().position(|byte| *byte == b'\n')
}

// The length of the bytes up to the next line feed and with it, or of all where there is none.
fn piece_length(bytes: &[u8]) -> usize
    ensures length { result ≡ length (piece bytes.now) }
    ensures within { result ≤ length bytes.now }
{
    match feed_at(bytes) {
        Some(at) => at + 1,
        None => bytes.len(),
    }
}

impl<'a> LineReader<'a> {
    // A reader at the first byte.
    pub fn new(input: &'a [u8]) -> LineReader<'a>
        ensures input { input_of result ≡ input.now }
        ensures place { result.place ≡ 0 }
    {
        LineReader { input, place: 0 }
    }

    // The bytes that are left.
    fn ahead(&self) -> &'a [u8]
        ensures { result.now ≡ ahead self.now }
    {
        &self.input[self.place..]
    }

    // Passes the line at the place, which is then in `line`, and says whether there is one; on every way out but acceptance
    // the place goes back. The line is lent, since to hand one on copies it at each step.
    fn accept(&mut self, line: &mut Line) -> bool
        ensures input { input_of self.new ≡ input_of self.old }
        ensures line { line_of (piece (ahead self.old)) ≡ (if result then Some line.new else None) }
        ensures place { self.new.place ≡ (if result then past_piece self.old else self.old.place) }
    {
        let input = self.input;
        let ahead = self.ahead();
        let first = self.place;
        let mut guard = Guard {
            place: &mut self.place,
            first,
            accepted: false,
        };
        // no `?`: the borrow checker does not cover it beside a guard with a drop of its own
        let Some((tag, rest)) = tag_first(ahead) else {
            return false;
        };
        *guard.place = input.len() - rest.len();
        *line = Line::new(tag);
        let Some(rest) = numbers_first(line, rest) else {
            return false;
        };
        *guard.place = input.len() - rest.len();
        guard.accepted = true;
        true
    }

    // Reads a line, and answers the place after it; where there is none the place stays.
    pub fn read(&mut self) -> (Answer, Line)
        ensures reads { Reads self.old self.new result.0 result.1.0 result.1.1 }
        ensures one { OneSpelling }
    {
        let mut line = Line::none();
        if self.accept(&mut line) {
            (answer(Ok(self.place)), line)
        } else {
            (Refusal::NotALine.into(), Line::none())
        }
    }

    // Passes the next line feed, or goes to the end, and answers the new place.
    pub fn skip(&mut self) -> Answer
        ensures input { input_of self.new ≡ input_of self.old }
        ensures place { self.new.place ≡ past_piece self.old }
        ensures answer { result ≡ answer_of (Ok self.new.place) }
    {
        self.place += piece_length(self.ahead());
        answer(Ok(self.place))
    }

    // Whether no byte is left.
    pub fn at_end(&self) -> bool
        ensures { Decides result (self.now.place ≡ length (input_of self.now)) }
    {
        self.place == self.input.len()
    }

    // Reads a line, and passes what is not a line.
    pub fn next_line(&mut self) -> (Answer, Line)
        ensures hears { Hears self.old self.new result.0 result.1 }
        ensures exact { LineExact }
    {
        let mut line = Line::none();
        if !self.accept(&mut line) {
            self.skip();
            return (Refusal::NotALine.into(), Line::none());
        }
        (answer(Ok(self.place)), line)
    }
}
