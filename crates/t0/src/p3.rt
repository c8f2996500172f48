ghost use Rattle.std.specs.Prelude.{◌≡◌};
ghost use Rattle.t0.specs.Procedures.{as_p3};

// A count as P3: 256 is 00.
pub(crate) fn as_p3(n: usize) -> u8
    ensures { result ≡ as_p3 n }
{
    u8::try_from(n).unwrap_or(0)
}
