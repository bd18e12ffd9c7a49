//! The tests by their subjects, and what they share.
mod checks;
mod cursors;
mod openers;
