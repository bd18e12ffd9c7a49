//! The results of all look-ups of each test, as one number, when the record was last made.
//!
//! The record detects changes; it does not show that results are right. `dev/checks/record_spans` makes it again. A
//! commit that does so says which results changed, and why.

/// Each test with its number.
pub const RECORDED: &[(&str, u64)] = &[
    ("random_maps", 11603040495323218238),
    ("walks", 9946858980257316201),
    ("line_counts", 9092647430259762850),
    ("long_spans", 8007584334357079735),
    ("several_files", 566792138370695580),
];
