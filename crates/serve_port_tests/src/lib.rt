//! Tests of `serve_port`: workers side by side, over a port and links in memory.
#![tactic(auto)]

#[cfg(test)]
mod tests;
