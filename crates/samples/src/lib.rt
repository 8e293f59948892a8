//! Samples of the definitions of the libraries below: bytes, and what they hold, print and become, as theorems. They
//! are in `proofs/`, in modules by topic.
#![tactic(auto)]
