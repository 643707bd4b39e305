// Writing a line into a buffer that is lent.
ghost use Rattle.std.specs.Prelude.{◌≡◌, ◌+◌, ◌*◌, ◌≤◌, ◌++◌, length, take, drop, if◌then◌else◌};
ghost use Rattle.systems.specs.Outcomes.{answer_of, accepts};
ghost use Rattle.lines.specs.Spelling.{small, spelling, columns, tag_length, width, Allowed};
ghost use Rattle.lines.specs.Writing.{fitted, writing, written, over, ReadsBack};

use crate::column::{COLUMN, LARGEST, column};
use crate::tag::{LETTERS, Tag};
use systems::outcome::{Answer, Outcome, Refusal, answer};

// Whether no number is above the largest.
fn all_small(numbers: &[u32]) -> bool
    ensures { result ≡ small numbers.now }
{
    numbers.iter().all(|number| *number <= LARGEST)
}

// Writes the columns of numbers, which fill the buffer.
fn put_columns(out: &mut [u8], numbers: &[u32])
    requires { length out.old ≡ width * length numbers.now }
    ensures { out.new ≡ columns numbers.now }
{
    // by index: of what is written through `chunks_exact_mut` a proof knows the length alone
    for (index, number) in numbers.iter().enumerate() {
        let at = COLUMN * index;
        out[at..at + COLUMN].copy_from_slice(&column(*number));
    }
}

// Writes a line that there is room for.
fn spell(tag: Tag, numbers: &[u32], out: &mut [u8])
    requires { tag_length + width * length numbers.now + 1 ≤ length out.old }
    ensures { out.new ≡ over (spelling tag numbers.now) out.old }
{
    let end = LETTERS + COLUMN * numbers.len();
    out[..LETTERS].copy_from_slice(&tag.name());
    put_columns(&mut out[LETTERS..end], numbers);
    out[end] = b'\n';
}

// Writes a line if its numbers are small and there is room.
fn write_line(tag: Tag, numbers: &[u32], out: &mut [u8]) -> Outcome
    ensures outcome { result ≡ fitted (small numbers.now) (tag_length + width * length numbers.now + 1) (length out.old) }
    ensures after { out.new ≡ (if accepts result then over (spelling tag numbers.now) out.old else out.old) }
{
    if !all_small(numbers) {
        return Err(Refusal::NumberTooLarge);
    }
    let needed = LETTERS + COLUMN * numbers.len() + 1;
    if needed > out.len() {
        return Err(Refusal::BufferShort(needed));
    }
    spell(tag, numbers, out);
    Ok(needed)
}

// Writes a line at the front of the buffer, and answers its length.
pub fn write(tag: Tag, numbers: &[u32], out: &mut [u8]) -> Answer
    ensures answer { result ≡ answer_of (writing tag numbers.now (length out.old)) }
    ensures after { out.new ≡ written tag numbers.now out.old }
    ensures back { Allowed tag numbers.now → result.0 ≡ 0 → ReadsBack tag numbers.now out.new }
{
    answer(write_line(tag, numbers, out))
}
