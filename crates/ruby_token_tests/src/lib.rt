//! Tests of `ruby_token` on large files. What a few bytes can show is a case of `ruby_token_cases`.
#![tactic(auto)]

#[cfg(test)]
mod large;
