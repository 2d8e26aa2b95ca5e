//! Counters: each goes up by one, and stays at 2^64 - 1.
ghost use Rattle.std.specs.Prelude.{◌≡◌, length, replicate};
ghost use Rattle.base_times.specs.Counts.{counted_at, more};

/// One more; 2^64 - 1 stays.
pub fn more(count: u64) -> u64
    ensures { result ≡ more count }
{
    count.saturating_add(1)
}

/// Counts one more at a place; past the end nothing changes.
#[tactic(auto, using(std::proofs::lemmas::List::set_past))]
pub fn count_at(counts: &mut [u64], place: usize)
    ensures { counts.new ≡ counted_at counts.old place }
{
    if place < counts.len() {
        counts[place] = more(counts[place]);
    }
}

/// Each counter is 0 again.
#[tactic(auto, using(crate::proofs::CountLemmas::all_zeros))]
pub fn clear(counts: &mut [u64])
    ensures { counts.new ≡ replicate (length counts.old) 0 }
{
    for count in counts.iter_mut() {
        *count = 0;
    }
}
