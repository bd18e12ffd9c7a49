//! The tests by their subjects, and what they share.
mod answers;
mod checks;
mod plain;
mod random_maps;
mod recorded;
mod sweeps;
mod texts;
