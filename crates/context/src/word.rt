// A number as a word holds it.
ghost use Rattle.std.specs.Prelude.{◌≡◌};
ghost use Rattle.context.specs.Words.{cap};

pub fn capped(n: usize) -> u32
    ensures { result ≡ cap n }
{
    u32::try_from(n).unwrap_or(u32::MAX)
}
