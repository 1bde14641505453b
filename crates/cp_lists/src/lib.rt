//! Lists: the notions that definitions use of them, and the lemmas that proofs share.
#![tactic(auto)]
