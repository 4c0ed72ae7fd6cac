// The whole part of a square root.
ghost use Rattle.cosine.specs.Root.{IsRoot};

// The whole part of the root of x.
pub(crate) fn root(x: u64) -> u64
    ensures { IsRoot x result }
{
    x.isqrt()
}
