//! The policy of the worked examples with lines more.

use reg_policy::Policy;
use samples_of_tests::POLICY;
use std::alloc::{AllocError, Global};

/// Lines that come in that policy after these.
#[derive(Clone, Copy)]
pub struct Added {
    pub after: &'static str,
    pub lines: &'static str,
}

/// Contractors withdraw.
pub const WITHDRAWALS: Added = Added {
    after: "verb = \"extract\"\n",
    lines: r#"
[[rule]]
number = 45
effect = "permit"
verb = "withdraw"
role = "contractor"
"#,
};

/// Extracts are permitted in one month.
pub const IN_JUNE: Added = Added {
    after: "verb = \"extract\"\n",
    lines: "from = \"2024-06-01\"\nuntil = \"2024-06-30\"\n",
};

/// Rows of other firms are shown from one day on.
pub const FROM_SECOND_JUNE: Added = Added {
    after: "number = 80\n",
    lines: "from = \"2024-06-02\"\n",
};

/// The text of that policy; empty where the lines before the new ones are missing.
fn text_with(alloc: Global, added: &Added) -> Result<String, AllocError> {
    let mut text = String::new(alloc);
    if let Some((before, after)) = POLICY.split_once(added.after) {
        for part in [before, added.after, added.lines, after] {
            text.push_str(part)?;
        }
    }
    Ok(text)
}

/// That policy; none where memory is refused.
pub fn policy_with(alloc: Global, added: &Added) -> Option<Policy> {
    let text = text_with(alloc, added).ok()?;
    Policy::read(alloc, text.as_str()).ok()
}
