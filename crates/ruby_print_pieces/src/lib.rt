//! What printed trees are made of: the pieces of a printed file, each a token with the white before it, and which
//! trees texts of
//! the profile have.
#![tactic(auto)]
