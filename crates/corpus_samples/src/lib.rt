//! Theorems about the files in tests/corpus, which other programs wrote, and about rows of tests:
//! `tests/samples_of_corpus` writes them into `proofs/`. Without that folder the crate is empty.
#![tactic(auto)]
