//! Times, and what so many of them don't pass.
use base_times::{BUCKETS, Times};
use std::test::Fail;

/// The last time of the bucket of each, by a percentile of it alone.
#[test]
fn each_time_is_told_as_the_last_of_its_bucket(rt: HostRuntime) -> Result<(), Fail> {
    for (time, last) in [
        (0, 0),
        (1, 1),
        (15, 15),
        (16, 16),
        (31, 31),
        (32, 33),
        (33, 33),
        (63, 63),
        (64, 67),
        (100, 103),
        (1_000, 1_023),
        (1_024, 1_087),
        (1_000_000, 1_015_807),
        (u64::MAX, u64::MAX),
    ] {
        let mut times = Times::new(rt.alloc())?;
        times.note(time);
        assert_eq!(rt; times.percentile(50), Some(last), "at {time} microseconds");
        assert_eq!(rt; times.percentile(99), Some(last), "at {time} microseconds");
    }
    Ok(())
}

/// From 1 to 100 microseconds, in an order of no matter.
#[test]
fn a_percentile_is_of_the_rank_rounded_up(rt: HostRuntime) -> Result<(), Fail> {
    let mut times = Times::new(rt.alloc())?;
    assert_eq!(rt; times.percentile(50), None);
    for step in 0..100 {
        times.note(step * 37 % 100 + 1);
    }
    for (percent, last) in [(1, 1), (16, 16), (50, 51), (99, 99), (100, 103)] {
        assert_eq!(rt;
            times.percentile(percent),
            Some(last),
            "at {percent} percent"
        );
    }
    times.note(100_000);
    assert_eq!(rt; times.percentile(99), Some(103));
    assert_eq!(rt; times.percentile(100), Some(102_399));
    times.clear();
    assert_eq!(rt; times.percentile(100), None);
    assert_eq!(rt; BUCKETS, 976);
    Ok(())
}
