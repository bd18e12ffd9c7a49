use crate::tests::checks::{check_answer, shows};
use pm_span::{LineColumn, SourceMap};
use std::alloc::Global;
use std::cmp::Ordering;
use std::collections::{BTreeMap, HashMap};
use std::process::Abort;
use test_helpers::release;

fn line_column((line, column): (usize, usize)) -> LineColumn {
    LineColumn { line, column }
}

/// Asserts how each pair of line and column compares with the one beside it, for each operator.
fn are_compared(rt: &impl Abort, rows: &[((usize, usize), (usize, usize), Ordering)]) {
    for &(first, second, order) in rows {
        let (a, b) = (line_column(first), line_column(second));
        let want = (first, second, order, Some(order), order == Ordering::Equal);
        let answers = (first, second, a.cmp(&b), a.partial_cmp(&b), a == b);
        check_answer(rt, "two of them", &answers, &want);
    }
}

/// Returns how many of them differ, for a map that hashes them and one that orders them.
fn count(rt: &impl Abort, alloc: Global, numbers: &[(usize, usize)]) -> (usize, usize) {
    let mut hashed = HashMap::new(alloc);
    let mut ordered = BTreeMap::new(alloc);
    for &at in numbers {
        let inserted: Result<_, _> = hashed.insert(line_column(at), ());
        let _ = inserted.expect(rt, "a key");
        let inserted: Result<_, _> = ordered.insert(line_column(at), ());
        let _ = inserted.expect(rt, "a key");
    }
    let counts = (hashed.len(), ordered.len());
    release((hashed, ordered));
    counts
}

#[test]
fn lines_with_columns_are_ordered_by_line_and_then_by_column(rt: HostRuntime) {
    let rows = &[
        ((1, 5), (2, 0), Ordering::Less),
        ((2, 0), (1, 5), Ordering::Greater),
        ((3, 1), (3, 2), Ordering::Less),
        ((3, 2), (3, 1), Ordering::Greater),
        ((3, 1), (3, 1), Ordering::Equal),
        ((1, 3), (3, 1), Ordering::Less),
    ];
    are_compared(&rt, rows);
}

#[test]
fn a_map_keys_them_by_line_and_column(rt: HostRuntime) {
    let counts = count(
        &rt,
        rt.alloc(),
        &[(1, 2), (2, 1), (1, 2), (1, 1), (2, 2), (2, 1)],
    );
    check_answer(&rt, "counts", &counts, &(4, 4));
}

#[test]
fn they_show_their_line_and_their_column(rt: HostRuntime) {
    let want = "LineColumn { line: 2, column: 3 }";
    shows(&rt, rt.alloc(), &line_column((2, 3)), want);
}

#[test]
fn a_source_map_shows_its_files_and_its_limit(rt: HostRuntime) {
    let want = "SourceMap { alloc: Global, files: [], limit: 7 }";
    let map = SourceMap::with_limit(rt.alloc(), 7);
    shows(&rt, rt.alloc(), &map, want);
    release(map);
}
