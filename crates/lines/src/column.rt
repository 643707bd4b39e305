// Numbers in columns.
ghost use Rattle.std.specs.Prelude.{◌≡◌, ℕ, List, MatchOption};
ghost use Rattle.lines.specs.Spelling.{digit as lastDigit, digit_or_space as spaced, column as columnOf};
ghost use Rattle.lines.specs.Parts.{ColumnFirst};
ghost use Rattle.lines.specs.Reading.{worth as worthOf};

// The places of a column, and the largest number that they hold.
pub(crate) const COLUMN: usize = 6;

pub(crate) const LARGEST: u32 = 999_999;

// The last digit of a number.
fn digit(number: u32) -> u8
    ensures { result ≡ lastDigit number }
{
    b'0' + (number % 10) as u8
}

// The same, but a space where nothing is left of the number.
fn digit_or_space(left: u32) -> u8
    ensures { result ≡ spaced left }
{
    if left == 0 { b' ' } else { digit(left) }
}

// A number in its column.
pub(crate) fn column(number: u32) -> [u8; COLUMN]
    ensures { result ≡ columnOf number }
{
    // no loop from the right: the last place, which has a digit even for 0, would need a case of its own
    let tens = number / 10;
    let hundreds = tens / 10;
    let thousands = hundreds / 10;
    let ten_thousands = thousands / 10;
    [
        digit_or_space(ten_thousands / 10),
        digit_or_space(ten_thousands),
        digit_or_space(thousands),
        digit_or_space(hundreds),
        digit_or_space(tens),
        digit(number),
    ]
}

// What the bytes of a column are worth as digits; a space is worth nothing. The library's parsing is no plainer here, as
// it refuses spaces and takes signs.
fn worth(column: &[u8; COLUMN]) -> u32
    ensures { result ≡ worthOf column.now }
{
    // no `fold`: the check does not prove that its closure may be called, since the total needs a bound
    let mut number = 0;
    for byte in column {
        number = number * 10 + u32::from(byte.saturating_sub(b'0'));
    }
    number
}

// The number whose column is at the front of bytes, and the bytes after it.
pub(crate) fn column_first(bytes: &[u8]) -> Option<(u32, &[u8])>
    ensures { MatchOption result ((n : ℕ) (rest : List ℕ) → ColumnFirst bytes.now n rest → ⊥) (λ p. ColumnFirst bytes.now p.0 p.1.now) }
{
    let (first, rest) = bytes.split_first_chunk::<COLUMN>()?;
    let number = worth(first);
    if number <= LARGEST && *first == column(number) {
        Some((number, rest))
    } else {
        None
    }
}
