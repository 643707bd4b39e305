// The parts of a line at the front of bytes, each with the bytes after it.
ghost use Rattle.std.specs.Prelude.{◌≡◌, ℕ, List, [], MatchOption};
ghost use Rattle.lines.specs.Parts.{TagFirst, NumbersFirst};

use crate::column::column_first;
use crate::line::Line;
use crate::tag::{LETTERS, Tag};

// The tag.
pub(crate) fn tag_first(bytes: &[u8]) -> Option<(Tag, &[u8])>
    ensures { MatchOption result ((t : Tag) (rest : List ℕ) → TagFirst bytes.now t rest → ⊥) (λ p. TagFirst bytes.now p.0 p.1.now) }
{
    let (name, rest) = bytes.split_first_chunk::<LETTERS>()?;
    Some((Tag::of(name)?, rest))
}

// Adds the numbers at the front of the bytes to a line that has none, and gives the bytes after its line feed. The line
// is lent, since to hand one out with the bytes would copy it.
pub(crate) fn numbers_first<'a>(line: &mut Line, bytes: &'a [u8]) -> Option<&'a [u8]>
    requires { line.old.1 ≡ [] }
    ensures tag { line.new.0 ≡ line.old.0 }
    ensures numbers { MatchOption result ((ns rest : List ℕ) → NumbersFirst bytes.now line.old.0 ns rest → ⊥) (λ rest. NumbersFirst bytes.now line.old.0 line.new.1 rest.now) }
{
    let mut left = bytes;
    // The line feed is looked for first: to try it as a column costs as much as to read a column.
    loop {
        if let Some(rest) = left.strip_prefix(b"\n") {
            return line.tag().allows(line.numbers().len()).then_some(rest);
        }
        let (number, rest) = column_first(left)?;
        if line.is_full() {
            return None;
        }
        line.push(number);
        left = rest;
    }
}
