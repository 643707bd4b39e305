// Single bits of a number.
ghost use Rattle.std.specs.Prelude.{◌≡◌, ◌<◌};
ghost use Rattle.plants.specs.Bits.{bit};

// Whether bit i of the number is 1.
pub(crate) fn has_bit(n: u32, i: usize) -> bool
    requires { i < 32 }
    ensures { result ≡ bit n i }
{
    (n >> i) % 2 == 1
}
