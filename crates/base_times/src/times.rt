//! How many times fell into each bucket.
ghost use Rattle.std.specs.Prelude.{◌≡◌, ◌≤◌, ◌<◌, ◌-◌, ◌+◌, ◌*◌, ◌^◌, ◌++◌, ◌∷◌, ℕ, List, [], IfOk, IfSome, None};
ghost use Rattle.std.specs.Prelude.{length, sum};
ghost use Rattle.base_times.specs.Counts.{counted_at};
ghost use Rattle.base_times.specs.Buckets.{bucket_of};
ghost use Rattle.base_times.specs.Percentiles.{AreCounts, IsPercentile, no_counts, percentile_of, rank_of, reached};
ghost use Rattle.base_times.specs.declared.bucket.TheConstants.{BUCKETS};

use crate::bucket::{BUCKETS, bucket_of, last_of};
use crate::count::{clear, count_at};
use std::alloc::{AllocError, Global};
use std::marker::Model;

/// How many times fell into each bucket. A contract sees these counts; `AreCounts` says of which times they are.
pub struct Times {
    counts: Vec<u64>,
}

// A derived `drop` is proved anew in each crate that holds times; this one is a call.
impl Drop for Times {
    fn drop(self) {
        let Times { counts } = self;
    }
}

impl Model for Times {
    ghost use Rattle.std.specs.Prelude.{◌≡◌, List, ℕ, vec_len};
    ghost use Rattle.base_times.specs.declared.bucket.TheConstants.{BUCKETS};

    ghost Value = { List ℕ };

    ghost view = { λ t. t.counts.items };

    ghost invariant = { λ t. vec_len t.counts ≡ BUCKETS };
}

/// How many times there are.
fn total_of(counts: &[u64]) -> u128
    requires { length counts.now ≡ BUCKETS }
    ensures is { result ≡ sum counts.now }
    ensures within { result ≤ BUCKETS * 2 ^ 64 }
{
    let mut total = 0u128;
    for count in counts {
        total += u128::from(*count);
    }
    total
}

/// The rank of a percentile among so many times, from 1 on.
fn rank_of(total: u128, percent: u64) -> u128
    requires total { total ≤ BUCKETS * 2 ^ 64 }
    requires percent { percent ≤ 100 }
    ensures { result ≡ rank_of total percent }
{
    (total * u128::from(percent) + 99) / 100
}

/// How many buckets come before that in which a rank lies.
fn reached(counts: &[u64], rank: u128) -> usize
    ensures { result ≡ reached rank counts.now }
{
    let mut left = rank;
    for (place, count) in counts.iter().enumerate() {
        if left <= u128::from(*count) {
            return place;
        }
        left -= u128::from(*count);
    }
    counts.len()
}

/// The last time of the bucket in which a percentile lies, if there are times.
fn percentile_of(counts: &[u64], percent: u64) -> Option<u64>
    requires length { length counts.now ≡ BUCKETS }
    requires some { 1 ≤ percent }
    requires percent { percent ≤ 100 }
    ensures { result ≡ percentile_of counts.now percent }
{
    let total = total_of(counts);
    if total == 0 {
        return None;
    }
    Some(last_of(reached(counts, rank_of(total, percent))))
}

impl Times {
    // Counts one time more.
    fn put(&mut self, time: u64)
        ensures { self.new ≡ counted_at self.old (bucket_of time) }
    {
        count_at(&mut self.counts, bucket_of(time));
    }

    // The last time of the bucket in which a percentile lies.
    fn at(&self, percent: u64) -> Option<u64>
        requires some { 1 ≤ percent }
        requires percent { percent ≤ 100 }
        ensures { result ≡ percentile_of self.now percent }
    {
        percentile_of(&self.counts, percent)
    }

    /// No times. The memory that this takes is all that is ever taken.
    #[tactic(auto, unfolding(crate::specs::Percentiles::no_counts))]
    pub fn new(alloc: Global) -> Result<Times, AllocError>
        ensures { IfOk result (λ times. times ≡ no_counts) }
    {
        Ok(Times {
            counts: vec![in alloc; 0; BUCKETS]?,
        })
    }

    /// Counts one time more. Takes no memory.
    pub fn note(&mut self, time: u64)
        ensures counted { self.new ≡ counted_at self.old (bucket_of time) }
        ensures one_more { (times : List ℕ) → AreCounts self.old times → length times < 2 ^ 64 - 1
            → AreCounts self.new (times ++ time ∷ []) }
    {
        self.put(time);
    }

    /// A time that so many of a hundred times don't pass, none where there are no times: the last of the bucket in
    /// which the time of that rank lies. The rank is that share of the count of all times, rounded up.
    pub fn percentile(&self, percent: u64) -> Option<u64>
        requires some { 1 ≤ percent }
        requires percent { percent ≤ 100 }
        ensures value { result ≡ percentile_of self.now percent }
        ensures meaning { (times : List ℕ) → AreCounts self.now times
            → IfSome result (λ last. IsPercentile times percent last) }
        ensures none { (times : List ℕ) → AreCounts self.now times → result ≡ None → times ≡ [] }
    {
        self.at(percent)
    }

    /// No times again. Takes no memory.
    #[tactic(auto, unfolding(crate::specs::Percentiles::no_counts))]
    pub fn clear(&mut self)
        ensures { self.new ≡ no_counts }
    {
        clear(&mut self.counts);
    }
}

/// The counts of no times are those that `Times` begins with.
pub fn no_times_are_counted()
    ensures { AreCounts no_counts [] }
{}
