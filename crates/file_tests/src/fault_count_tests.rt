//! Counts of faults.
use nf_files::{FaultCount, FilesFault};

/// The files of calls that failed, as in the tests of files in memory and of files of the system.
#[test]
fn each_fault_counts_and_the_first_is_kept(rt: HostRuntime) {
    let cases: [(&[u32], u64, Option<u32>); 4] = [
        (&[], 0, None),
        (&[3, 4], 2, Some(3)),
        (&[2, 3, 3, 3], 4, Some(2)),
        (&[2, 2, 2], 3, Some(2)),
    ];
    for (files, faults, first) in cases {
        let mut count = FaultCount::new(rt.alloc());
        for file in files {
            assert_eq!(rt; count.fail(*file), FilesFault::Failed);
        }
        assert_eq!(rt; (count.faults(), count.first()), (faults, first));
    }
}
