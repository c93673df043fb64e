//! Tests of `ags_dict`. Apart from it, so that it is proved once.
#![tactic(auto)]

#[cfg(test)]
mod tests;
