//! Tests of `ags_cli`, `reg_cli` and `reg_app`. Apart from them, so that they are proved once.
#![tactic(auto)]

#[cfg(test)]
mod tests;
