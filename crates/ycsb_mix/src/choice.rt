//! The choice of a rank by whole-number weights.
//!
//! The sums of the weights are made once, so that a choice halves a table and does not walk it.
ghost use Rattle.std.specs.Prelude.{◌≡◌, ◌<◌, ◌≤◌, ◌^◌, IfOk, length};
ghost use Rattle.ycsb_mix.specs.Choice.{IsTable, chosen_rank};

use std::alloc::{AllocError, Global};

/// At each of so many ranks the weights of the ranks up to it, added up.
pub(crate) fn sums_of(alloc: Global, ranks: u32) -> Result<Vec<u64>, AllocError>
    requires { ranks ≤ 2 ^ 20 }
    ensures table { IfOk result (λ sums. IsTable sums.items) }
    ensures ranks { IfOk result (λ sums. length sums.items ≡ ranks) }
{
    let mut sums = Vec::with_capacity(alloc, ranks as usize)?;
    let mut sum: u64 = 0;
    for rank in 0..ranks {
        sum += (1 << 20) / (u64::from(rank) + 1);
        sums.push(sum)?;
    }
    Ok(sums)
}

/// The rank that two words choose, the high half first.
pub(crate) fn choose(sums: &[u64], high: u32, low: u32) -> u32
    requires table { IsTable sums.now }
    requires some { 0 < length sums.now }
    requires few { length sums.now ≤ 2 ^ 20 }
    ensures chosen { result ≡ chosen_rank (length sums.now) high low }
    ensures within { result < length sums.now }
{
    let total = sums[sums.len() - 1];
    let chosen = (u64::from(high) * (1 << 32) + u64::from(low)) % total;
    sums.partition_point(|&sum| sum <= chosen) as u32
}
