//! The tests by their subjects, and what they share.
mod checks;
mod choosers;
mod doc_comments;
mod random_gaps;
mod rows;
