ghost use Rattle.std.specs.Prelude.{◌≡◌, ◌+◌, ◌*◌, ◌^◌};

/// One number for two, which stands in the same order as the pairs do: by `a`, and where that is the same by `b`.
///
/// Edges are sorted by it and looked for by it: a sort compares keys again and again, and of 4 million edges it takes
/// some 5 percent less time (in plain Rust) than by the pair of the two.
pub fn pair_key(a: u32, b: u32) -> u64
    ensures { result ≡ 2 ^ 32 * a + b }
{
    (u64::from(a) << 32) + u64::from(b)
}
