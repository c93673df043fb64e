//! Policies that are read, and that are refused.
use super::joined;
use reg_policy::{Policy, PolicyError};
use std::alloc::Global;

pub(super) const RULE: &str = "[[rule]]\nnumber = 1\neffect = \"permit\"\n";

/// A policy in two parts, and what reading it refuses.
#[derive(Drop)]
struct Spelt {
    head: &'static str,
    text: &'static str,
    want: Option<PolicyError>,
}

const POLICIES: [Spelt; 30] = [
    Spelt {
        head: "",
        text: "[[rule",
        want: Some(PolicyError::Syntax),
    },
    Spelt {
        head: "",
        text: "[[rule]]\nnumber = 99999999999999999999\neffect = \"deny\"\n",
        want: Some(PolicyError::Syntax),
    },
    Spelt {
        head: "",
        text: "other = 1\n",
        want: Some(PolicyError::UnknownKey),
    },
    Spelt {
        head: "",
        text: "[[rule]]\nnumber = 0\neffect = \"deny\"\n[[rule]]\ncolour = 1\n",
        want: Some(PolicyError::UnknownKey),
    },
    Spelt {
        head: "",
        text: "rule = [3, { colour = 1 }]\n",
        want: Some(PolicyError::UnknownKey),
    },
    Spelt {
        head: "",
        text: "[rule]\ncolour = 1\n",
        want: Some(PolicyError::BadValue),
    },
    Spelt {
        head: "",
        text: "rule = 3\n",
        want: Some(PolicyError::BadValue),
    },
    Spelt {
        head: "",
        text: "rule = [3]\n",
        want: Some(PolicyError::BadValue),
    },
    Spelt {
        head: "",
        text: "[[rule]]\nnumber = 1\n",
        want: Some(PolicyError::BadValue),
    },
    Spelt {
        head: "",
        text: "[[rule]]\neffect = \"deny\"\n",
        want: Some(PolicyError::BadValue),
    },
    Spelt {
        head: "",
        text: "[[rule]]\nnumber = 0\neffect = \"deny\"\n",
        want: Some(PolicyError::BadValue),
    },
    Spelt {
        head: "",
        text: "[[rule]]\nnumber = 10000\neffect = \"deny\"\n",
        want: Some(PolicyError::BadValue),
    },
    Spelt {
        head: "",
        text: "[[rule]]\nnumber = 1\neffect = \"*\"\n",
        want: Some(PolicyError::BadValue),
    },
    Spelt {
        head: "",
        text: "[[rule]]\nnumber = 2\neffect = \"deny\"\n[[rule]]\nnumber = 1\n",
        want: Some(PolicyError::BadValue),
    },
    Spelt {
        head: "",
        text: "[[rule]]\nnumber = 20\neffect = \"deny\"\n[[rule]]\nnumber = 10\neffect = \"deny\"\n",
        want: Some(PolicyError::Order),
    },
    Spelt {
        head: "",
        text: "[[rule]]\nnumber = 1\neffect = \"deny\"\n[[rule]]\nnumber = 1\neffect = \"deny\"\n",
        want: Some(PolicyError::Order),
    },
    Spelt {
        head: RULE,
        text: "colour = 1\n",
        want: Some(PolicyError::UnknownKey),
    },
    Spelt {
        head: RULE,
        text: "firm.x = \"a\"\n",
        want: Some(PolicyError::BadValue),
    },
    Spelt {
        head: RULE,
        text: "firm = 3\n",
        want: Some(PolicyError::BadValue),
    },
    Spelt {
        head: RULE,
        text: "firm = \"N 1\"\n",
        want: Some(PolicyError::BadValue),
    },
    Spelt {
        head: RULE,
        text: "verb = \"read\"\n",
        want: Some(PolicyError::BadValue),
    },
    Spelt {
        head: RULE,
        text: "group = \"LOCAS\"\n",
        want: Some(PolicyError::BadValue),
    },
    Spelt {
        head: RULE,
        text: "owner = \"mine\"\n",
        want: Some(PolicyError::BadValue),
    },
    Spelt {
        head: RULE,
        text: "embargo = \"over\"\n",
        want: Some(PolicyError::BadValue),
    },
    Spelt {
        head: RULE,
        text: "heading = \"LOCA_ID\"\n",
        want: Some(PolicyError::BadValue),
    },
    Spelt {
        head: RULE,
        text: "value = \"x\"\n",
        want: Some(PolicyError::BadValue),
    },
    Spelt {
        head: RULE,
        text: "heading = \"*\"\nvalue = \"x\"\n",
        want: Some(PolicyError::BadValue),
    },
    Spelt {
        head: RULE,
        text: "firm = \"*\"\n",
        want: None,
    },
    Spelt {
        head: RULE,
        text: "heading = \"LOCA_ID\"\nvalue = \"*\"\n",
        want: None,
    },
    Spelt {
        head: RULE,
        text: "heading = \"LOCA_ID\"\nvalue = \"\"\n",
        want: None,
    },
];

/// The policy that the texts spell.
pub(super) fn policy_of(alloc: Global, texts: &[&str]) -> Result<Policy, PolicyError> {
    match joined(alloc, texts) {
        Ok(text) => Policy::read(alloc, text.as_str()),
        Err(_) => Err(PolicyError::NoMemory),
    }
}

/// Whether a policy is read, or refused as wanted.
fn is_policy(alloc: Global, case: &Spelt) -> bool {
    match policy_of(alloc, &[case.head, case.text]) {
        Ok(_) => case.want.is_none(),
        Err(error) => case.want == Some(error),
    }
}

#[test]
fn policies_read_or_refused(rt: HostRuntime) {
    for case in &POLICIES {
        assert!(rt; is_policy(rt.alloc(), case), "{}", case.text);
    }
}

/// Days that a rule may not have, and one beside an unknown key.
const BAD_DAYS: [(&str, PolicyError); 18] = [
    ("from = \"*\"\n", PolicyError::BadValue),
    ("until = \"*\"\n", PolicyError::BadValue),
    ("from = 2024-06-01\n", PolicyError::BadValue),
    ("until = 2024-06-01\n", PolicyError::BadValue),
    ("from = \"2024-6-1\"\n", PolicyError::BadValue),
    ("from = \"2023-02-29\"\n", PolicyError::BadValue),
    ("until = \"2023-02-29\"\n", PolicyError::BadValue),
    ("from = \"1969-12-31\"\n", PolicyError::BadValue),
    ("from = \"\"\n", PolicyError::BadValue),
    ("from = 19875\n", PolicyError::BadValue),
    ("until = true\n", PolicyError::BadValue),
    ("from = [\"2024-06-01\"]\n", PolicyError::BadValue),
    ("from.day = \"2024-06-01\"\n", PolicyError::BadValue),
    (
        "from = \"2024-06-01\"\nuntil = \"2024-05-31\"\n",
        PolicyError::BadValue,
    ),
    (
        "until = \"2024-05-31\"\nfrom = \"2024-06-01\"\n",
        PolicyError::BadValue,
    ),
    ("from = \"2024-06-01\"\nuntil = 3\n", PolicyError::BadValue),
    ("From = \"2024-06-01\"\n", PolicyError::UnknownKey),
    ("from = \"*\"\ncolour = 1\n", PolicyError::UnknownKey),
];

#[test]
fn days_refused(rt: HostRuntime) {
    for (keys, want) in &BAD_DAYS {
        let case = Spelt {
            head: RULE,
            text: keys,
            want: Some(*want),
        };
        assert!(rt; is_policy(rt.alloc(), &case), "{keys}");
    }
}
