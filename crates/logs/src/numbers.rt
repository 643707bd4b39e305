// The numbers of a line.
ghost use Rattle.std.specs.Prelude.{◌≡◌};
ghost use Rattle.logs.specs.Answers.{nth};

// The number at a column, from 0; past the last, 0. A function, as an `Option` would be unwrapped to 0 at each call.
pub(crate) fn number_at(numbers: &[u32], column: usize) -> u32
    ensures { result ≡ nth numbers.now column }
{
    numbers.get(column).copied().unwrap_or(0)
}
