//! Tests of `ags_text` and `ags_rows`. Apart from them, so that they are proved once.
#![tactic(auto)]

#[cfg(test)]
mod tests;
