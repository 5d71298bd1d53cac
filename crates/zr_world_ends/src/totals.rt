//! What waits at all ends together.

ghost use Rattle.std.specs.Prelude.{◌≡◌, ◌-◌, ◌^◌, min};
ghost use Rattle.std.specs.List.{list_all, sum_by};
ghost use Rattle.zr_world_ends.specs.Kept.{has_samples, waiting_bytes, waiting_count};

use crate::places::NamedEnd;

/// Whether only samples wait at some ends.
pub fn have_samples(ends: &[NamedEnd]) -> bool
    ensures { result ≡ list_all (λ e. has_samples e.1) ends.now }
{
    ends.iter().all(|(_, end)| end.has_samples())
}

/// How many messages wait at some ends: at most 2^64 - 1.
pub fn count(ends: &[NamedEnd]) -> u64
    ensures { result ≡ min (sum_by (λ e. waiting_count e.1) ends.now) (2 ^ 64 - 1) }
{
    let mut sum: u64 = 0;
    for named in ends {
        sum = sum.saturating_add(named.1.count());
    }
    sum
}

/// How many bytes the keys and the bodies of the samples have that wait at some ends: at most 2^64 - 1.
pub fn sample_bytes(ends: &[NamedEnd]) -> u64
    ensures { result ≡ min (sum_by (λ e. waiting_bytes e.1) ends.now) (2 ^ 64 - 1) }
{
    let mut sum: u64 = 0;
    for named in ends {
        sum = sum.saturating_add(named.1.sample_bytes());
    }
    sum
}
