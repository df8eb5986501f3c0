//! How many parts a run has.

ghost use Rattle.std.specs.Prelude.{◌≡◌, ◌≤◌, ◌↔◌, IsSome, IfSome};

/// How many clusters, workers or threads there are: 1 to 64.
#[derive(Clone, Copy, Debug, PartialEq, Eq)]
pub struct PartCount {
    /// The number.
    pub count: u32,
    ghost some: { 1 ≤ count },
    ghost few: { count ≤ 64 },
}

impl PartCount {
    /// One part.
    pub const ONE: PartCount = PartCount { count: 1 };

    /// So many parts, where the number is from 1 to 64.
    pub fn new(count: u32) -> Option<PartCount>
        ensures some { IsSome result ↔ ((1 ≤ count) × (count ≤ 64)) }
        ensures count { IfSome result (λ parts. parts.count ≡ count) }
    {
        if 1 <= count && count <= 64 {
            Some(PartCount { count })
        } else {
            None
        }
    }
}
