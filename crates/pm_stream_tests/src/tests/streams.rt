// Tests of groups that nest deep.
use crate::tests::checks::{
    check_answer, check_same, count_trees, parses_well_spaced, printed_text, repeat_parts,
};

/// Brackets inside one another, around a plus sign.
const DEEP: &[(&str, u32)] = &[("[", 100_000), ("+", 1), ("]", 100_000)];

const DEEPER: &[(&str, u32)] = &[("[", 100_001), ("+", 1), ("]", 100_001)];

#[test]
fn deep_groups_are_read_without_stack(rt: HostRuntime) {
    let text = repeat_parts(&rt, rt.alloc(), DEEP);
    let trees = count_trees(&rt, rt.alloc(), text.as_str());
    check_answer(&rt, "all stands in one group", &trees, &1);
    let printed = printed_text(&rt, rt.alloc(), text.as_str());
    let is_same = printed.as_str() == text.as_str();
    check_answer(&rt, "no level has a space", &is_same, &true);
}

#[test]
fn deep_groups_are_compared_without_stack(rt: HostRuntime) {
    let text = repeat_parts(&rt, rt.alloc(), DEEP);
    let other = repeat_parts(&rt, rt.alloc(), DEEPER);
    check_same(&rt, text.as_str(), text.as_str(), true);
    check_same(&rt, text.as_str(), other.as_str(), false);
    let spaced = parses_well_spaced(&rt, rt.alloc(), text.as_str());
    check_answer(&rt, "each level is one group", &spaced, &true);
}
