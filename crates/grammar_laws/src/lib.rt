//! Lemmas about the pieces of a text when the text after them changes. The laws about printed, joined and broken texts
//! follow from them.
#![tactic(auto)]
