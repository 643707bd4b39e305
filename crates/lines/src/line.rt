// A line as a value.
ghost use Rattle.std.specs.Prelude.{◌≡◌, ◌<◌, [], ◌∷◌, ◌++◌, length, IsTrue, ◌↔◌};
ghost use Rattle.lines.specs.Spelling.{most};
ghost use Rattle.lines.specs.Reading.{no_line};

use crate::column::COLUMN;
use crate::tag::{LETTERS, Tag};
use std::marker::Model;

// The most numbers that a line has.
pub(crate) const MOST: usize = 32;

// The length of a line with the most numbers: a buffer of so many bytes is long enough for any line that is read.
pub const LONGEST: usize = LETTERS + COLUMN * MOST + 1;

// A tag and numbers, which contracts see as a pair: behind the numbers the places hold zeros.
#[derive(Clone, Copy)]
pub struct Line {
    tag: Tag,
    // an array and a count: `arrayvec::ArrayVec` is not `Copy`, as a line is for its callers, by a rule of the project
    numbers: [u32; MOST],
    count: usize,
}

impl Model for Line {
    ghost use Rattle.std.specs.Prelude.{◌≡◌, ℕ, ◌-◌, ◌≤◌, List, ◌++◌, length, take, drop, replicate};
    ghost use Rattle.std.proofs.Common.{arith, sym, ap, ◌∙◌, take-append-drop, length-take-le};
    ghost use Rattle.lines.specs.Spelling.{most};
    ghost use Rattle.lines.specs.declared.tag.Tag.{Tag as Kind};

    ghost Value = { Kind × List ℕ };

    ghost view = { λ x. (x.tag, take x.count x.numbers) };

    ghost invariant = { λ x. (x.count ≤ most) × (length x.numbers ≡ most) × (drop x.count x.numbers ≡ replicate (most - x.count) 0) };

    ghost inverse = { λ v. record { tag = v.0; numbers = v.1 ++ replicate (most - length v.1) 0; count = length v.1 } };

    ghost inverse_ok = { λ x h i.
        let counted = length-take-le x.count x.numbers (omega (arith, h.0, h.1)) in
        record {
          tag = x.tag;
          numbers = (ap (λ k. take x.count x.numbers ++ replicate (most - k) 0) counted ∙ ap (λ zeros. take x.count x.numbers ++ zeros) (sym h.2) ∙ take-append-drop x.count x.numbers) i;
          count = counted i;
        } };
}

impl Line {
    // A line with no numbers.
    pub(crate) fn new(tag: Tag) -> Line
        ensures { result ≡ (tag, []) }
    {
        Line {
            tag,
            numbers: [0; MOST],
            count: 0,
        }
    }

    // What stands beside a refusal: by a rule of the project a call answers a pair of numbers, and a line beside it.
    pub(crate) fn none() -> Line
        ensures { result ≡ no_line }
    {
        Line::new(Tag::Line)
    }

    // Whether the line has the most numbers.
    pub(crate) fn is_full(&self) -> bool
        ensures { IsTrue result ↔ (length self.now.1 ≡ most) }
    {
        self.count == MOST
    }

    // Adds a number.
    pub(crate) fn push(&mut self, number: u32)
        requires { length self.old.1 < most }
        ensures { self.new ≡ (self.old.0, self.old.1 ++ number ∷ []) }
    {
        self.numbers[self.count] = number;
        self.count += 1;
    }

    // The line's tag.
    pub fn tag(&self) -> Tag
        ensures { result ≡ self.now.0 }
    {
        self.tag
    }

    // The line's numbers.
    pub fn numbers(&self) -> &[u32]
        ensures { result.now ≡ self.now.1 }
    {
        &self.numbers[..self.count]
    }
}
