//! Which times are counted together: each below 16 alone, and from there on 16 spans of one width up to each power of
//! two.
ghost use Rattle.std.specs.Prelude.{◌≡◌, ◌<◌, ◌+◌};
ghost use Rattle.base_times.specs.Buckets.{EachHasBucket, bucket_of, low_of};
ghost use Rattle.base_times.specs.declared.bucket.TheConstants.{BUCKETS};

/// How many buckets there are: enough for each number of 64 bits.
pub const BUCKETS: usize = 976;

/// The bucket of a time.
pub(crate) fn bucket_of(time: u64) -> usize
    ensures { result ≡ bucket_of time }
{
    if time < 16 {
        return time as usize;
    }
    // From 4 to 63: the greatest power of two that isn't above the time.
    let top = 63 - time.leading_zeros();
    let span = top - 4;
    span as usize * 16 + (time >> span) as usize
}

/// The last time of a bucket.
pub(crate) fn last_of(bucket: usize) -> u64
    requires { bucket < BUCKETS }
    ensures { result + 1 ≡ low_of (bucket + 1) }
{
    if bucket < 16 {
        return bucket as u64;
    }
    let width = 2u64.pow((bucket / 16 - 1) as u32);
    (16 + bucket % 16) as u64 * width + (width - 1)
}

/// Each time lies in the bucket that counts it; a bucket has one time, or is no wider than a sixteenth of its least.
pub fn each_time_has_a_bucket()
    ensures { EachHasBucket }
{}
