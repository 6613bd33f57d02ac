//! Moments, in milliseconds of one clock.
ghost use Rattle.std.specs.Prelude.{◌≡◌, ◌≤◌, ◌⊎◌, IfSome, IsSomeAnd, Some};

/// Returns the earlier of two moments, or the only one that there is.
pub fn earlier(one: Option<u64>, other: Option<u64>) -> Option<u64>
    ensures one { IfSome one (λ moment. IsSomeAnd result (λ first. first ≤ moment)) }
    ensures other { IfSome other (λ moment. IsSomeAnd result (λ first. first ≤ moment)) }
    ensures among { IfSome result (λ first. (one ≡ Some first) ⊎ (other ≡ Some first)) }
{
    match (one, other) {
        (Some(one), Some(other)) => Some(one.min(other)),
        (one, other) => one.or(other),
    }
}
