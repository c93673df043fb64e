//! A policy, and its callers.

/// Contractors deposit, all but Gamma. Anyone may check, list and extract. Of another firm's rows those
/// under a running embargo are hidden, and of the others preliminary locations and the samples `S9`.
pub const POLICY: &str = r#"[[rule]]
number = 5
effect = "deny"
verb = "deposit"
firm = "Gamma"

[[rule]]
number = 10
effect = "permit"
verb = "deposit"
role = "contractor"

[[rule]]
number = 20
effect = "permit"
verb = "check"

[[rule]]
number = 30
effect = "permit"
verb = "list"

[[rule]]
number = 40
effect = "permit"
verb = "extract"

[[rule]]
number = 50
effect = "permit"
verb = "see"
owner = "own"

[[rule]]
number = 60
effect = "deny"
verb = "see"
embargo = "running"

[[rule]]
number = 70
effect = "deny"
verb = "see"
group = "LOCA"
heading = "LOCA_STAT"
value = "PRELIM"

[[rule]]
number = 75
effect = "deny"
verb = "see"
group = "SAMP"
heading = "SAMP_REF"
value = "S9"

[[rule]]
number = 80
effect = "permit"
verb = "see"
"#;

/// Three contractors and a consultant.
pub const CALLERS: &str = r#"[[caller]]
token = "t-delta"
firm = "Delta"
role = "contractor"

[[caller]]
token = "t-gamma"
firm = "Gamma"
role = "contractor"

[[caller]]
token = "t-foxtrot"
firm = "Foxtrot"
role = "contractor"

[[caller]]
token = "t-echo"
firm = "Echo"
role = "consultant"
"#;
