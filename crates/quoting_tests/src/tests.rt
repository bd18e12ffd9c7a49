//! The tests by their subjects, and what they share.
mod checks;
mod random_trees;
mod rows;
mod templates;
mod trees;
mod values;
