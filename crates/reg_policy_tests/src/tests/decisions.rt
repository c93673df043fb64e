//! What policies decide of requests.
use super::policies::{RULE, policy_of};
use reg_policy::{Caller, Day, Decision, Name, NameError, Policy, Subject, Verb};
use std::alloc::Global;

/// One who asks in a project.
#[derive(Drop)]
pub(crate) struct Asker {
    pub(crate) caller: Caller,
    pub(crate) project: Name,
}

/// A caller in the project N1.
pub(super) fn asker_of(alloc: Global, firm: &str, role: &str) -> Result<Asker, NameError> {
    let firm = Name::read(alloc, firm)?;
    let role = Name::read(alloc, role)?;
    let project = Name::read(alloc, "N1")?;
    Ok(Asker {
        caller: Caller { firm, role },
        project,
    })
}

/// A request under a policy, and what is decided.
#[derive(Drop)]
struct Request {
    policy: &'static [&'static str],
    firm: &'static str,
    role: &'static str,
    verb: Verb,
    want: Decision,
}

/// Every fact that a request may lack is the star.
pub(super) const STARS: &[&str] = &[
    RULE,
    "firm = \"*\"\nrole = \"*\"\nproject = \"*\"\nverb = \"*\"\ngroup = \"*\"\nowner = \"*\"\nembargo = \"*\"\n",
];

/// The one rule is of withdrawals.
const WITHDRAWALS: &[&str] = &[RULE, "verb = \"withdraw\"\n"];

/// Policies whose one rule asks for a fact of a row.
const OF_GROUP: &[&str] = &[RULE, "group = \"LOCA\"\n"];

const OF_OWNER: &[&str] = &[RULE, "owner = \"own\"\n"];

const OF_EMBARGO: &[&str] = &[RULE, "embargo = \"past\"\n"];

const OF_ENTRY: &[&str] = &[RULE, "heading = \"LOCA_ID\"\nvalue = \"\"\n"];

pub(super) const POLICY: &[&str] = &[samples_of_tests::POLICY];

const REQUESTS: [Request; 28] = [
    Request {
        policy: POLICY,
        firm: "Gamma",
        role: "contractor",
        verb: Verb::Deposit,
        want: Decision::Deny(5),
    },
    Request {
        policy: POLICY,
        firm: "Delta",
        role: "contractor",
        verb: Verb::Deposit,
        want: Decision::Permit(10),
    },
    Request {
        policy: POLICY,
        firm: "Echo",
        role: "consultant",
        verb: Verb::Deposit,
        want: Decision::Deny(0),
    },
    Request {
        policy: POLICY,
        firm: "Echo",
        role: "consultant",
        verb: Verb::Check,
        want: Decision::Permit(20),
    },
    Request {
        policy: POLICY,
        firm: "Echo",
        role: "consultant",
        verb: Verb::List,
        want: Decision::Permit(30),
    },
    Request {
        policy: POLICY,
        firm: "Echo",
        role: "consultant",
        verb: Verb::Extract,
        want: Decision::Permit(40),
    },
    Request {
        policy: &[""],
        firm: "Delta",
        role: "contractor",
        verb: Verb::Deposit,
        want: Decision::Deny(0),
    },
    Request {
        policy: &["rule = []\n"],
        firm: "Delta",
        role: "contractor",
        verb: Verb::Deposit,
        want: Decision::Deny(0),
    },
    Request {
        policy: STARS,
        firm: "Echo",
        role: "consultant",
        verb: Verb::Deposit,
        want: Decision::Permit(1),
    },
    Request {
        policy: POLICY,
        firm: "Delta",
        role: "contractor",
        verb: Verb::Withdraw,
        want: Decision::Deny(0),
    },
    Request {
        policy: WITHDRAWALS,
        firm: "Delta",
        role: "contractor",
        verb: Verb::Withdraw,
        want: Decision::Permit(1),
    },
    Request {
        policy: WITHDRAWALS,
        firm: "Delta",
        role: "contractor",
        verb: Verb::Extract,
        want: Decision::Deny(0),
    },
    Request {
        policy: OF_GROUP,
        firm: "Echo",
        role: "consultant",
        verb: Verb::Deposit,
        want: Decision::Deny(0),
    },
    Request {
        policy: OF_GROUP,
        firm: "Echo",
        role: "consultant",
        verb: Verb::Check,
        want: Decision::Deny(0),
    },
    Request {
        policy: OF_GROUP,
        firm: "Echo",
        role: "consultant",
        verb: Verb::List,
        want: Decision::Deny(0),
    },
    Request {
        policy: OF_GROUP,
        firm: "Echo",
        role: "consultant",
        verb: Verb::Extract,
        want: Decision::Deny(0),
    },
    Request {
        policy: OF_OWNER,
        firm: "Echo",
        role: "consultant",
        verb: Verb::Deposit,
        want: Decision::Deny(0),
    },
    Request {
        policy: OF_OWNER,
        firm: "Echo",
        role: "consultant",
        verb: Verb::Check,
        want: Decision::Deny(0),
    },
    Request {
        policy: OF_OWNER,
        firm: "Echo",
        role: "consultant",
        verb: Verb::List,
        want: Decision::Deny(0),
    },
    Request {
        policy: OF_OWNER,
        firm: "Echo",
        role: "consultant",
        verb: Verb::Extract,
        want: Decision::Deny(0),
    },
    Request {
        policy: OF_EMBARGO,
        firm: "Echo",
        role: "consultant",
        verb: Verb::Deposit,
        want: Decision::Deny(0),
    },
    Request {
        policy: OF_EMBARGO,
        firm: "Echo",
        role: "consultant",
        verb: Verb::Check,
        want: Decision::Deny(0),
    },
    Request {
        policy: OF_EMBARGO,
        firm: "Echo",
        role: "consultant",
        verb: Verb::List,
        want: Decision::Deny(0),
    },
    Request {
        policy: OF_EMBARGO,
        firm: "Echo",
        role: "consultant",
        verb: Verb::Extract,
        want: Decision::Deny(0),
    },
    Request {
        policy: OF_ENTRY,
        firm: "Echo",
        role: "consultant",
        verb: Verb::Deposit,
        want: Decision::Deny(0),
    },
    Request {
        policy: OF_ENTRY,
        firm: "Echo",
        role: "consultant",
        verb: Verb::Check,
        want: Decision::Deny(0),
    },
    Request {
        policy: OF_ENTRY,
        firm: "Echo",
        role: "consultant",
        verb: Verb::List,
        want: Decision::Deny(0),
    },
    Request {
        policy: OF_ENTRY,
        firm: "Echo",
        role: "consultant",
        verb: Verb::Extract,
        want: Decision::Deny(0),
    },
];

/// A day of which no policy above says anything.
pub(super) const ANY_DAY: &str = "2024-05-01";

/// Whether a request on a day is decided as wanted.
fn is_decided(alloc: Global, policy: &Policy, request: &Request, day: &str) -> bool {
    let (Ok(asker), Some(day)) = (asker_of(alloc, request.firm, request.role), Day::read(day))
    else {
        return false;
    };
    let subject = Subject::of_request(&asker.caller, &asker.project, request.verb, day);
    policy.decide(&subject) == request.want
}

/// Whether a request is decided as wanted.
fn is_request_decided(alloc: Global, request: &Request) -> bool {
    match policy_of(alloc, request.policy) {
        Ok(policy) => is_decided(alloc, &policy, request, ANY_DAY),
        Err(_) => false,
    }
}

#[test]
fn requests_decided(rt: HostRuntime) {
    for request in &REQUESTS {
        assert!(rt; is_request_decided(rt.alloc(), request), "{}", request.firm);
    }
}

/// The line of policy Q after which its rule 40 gets more keys.
const EXTRACTS: &str = "verb = \"extract\"\n";

/// A month, a day from which on, a day until which, and one day alone.
pub(super) const JUNE: &str = "from = \"2024-06-01\"\nuntil = \"2024-06-30\"\n";

const FROM_JUNE: &str = "from = \"2024-06-01\"\n";

const UNTIL_JULY: &str = "until = \"2024-06-30\"\n";

const ONE_DAY: &str = "from = \"2024-06-01\"\nuntil = \"2024-06-01\"\n";

/// Further keys of rule 40, a day, and what is decided of an extract.
const EXTRACTS_ON_DAYS: [(&str, &str, Decision); 13] = [
    (JUNE, "2024-05-31", Decision::Deny(0)),
    (JUNE, "2024-06-01", Decision::Permit(40)),
    (JUNE, "2024-06-30", Decision::Permit(40)),
    (JUNE, "2024-07-01", Decision::Deny(0)),
    (FROM_JUNE, "2024-05-31", Decision::Deny(0)),
    (FROM_JUNE, "2024-06-01", Decision::Permit(40)),
    (FROM_JUNE, "9999-12-31", Decision::Permit(40)),
    (UNTIL_JULY, "1970-01-01", Decision::Permit(40)),
    (UNTIL_JULY, "2024-06-30", Decision::Permit(40)),
    (UNTIL_JULY, "2024-07-01", Decision::Deny(0)),
    (ONE_DAY, "2024-05-31", Decision::Deny(0)),
    (ONE_DAY, "2024-06-01", Decision::Permit(40)),
    (ONE_DAY, "2024-06-02", Decision::Deny(0)),
];

/// Whether Echo's extract on a day is decided as wanted.
fn is_extract_decided(alloc: Global, keys: &str, day: &str, want: Decision) -> bool {
    let request = Request {
        policy: POLICY,
        firm: "Echo",
        role: "consultant",
        verb: Verb::Extract,
        want,
    };
    let Some((above, below)) = samples_of_tests::POLICY.split_once(EXTRACTS) else {
        return false;
    };
    match policy_of(alloc, &[above, EXTRACTS, keys, below]) {
        Ok(policy) => is_decided(alloc, &policy, &request, day),
        Err(_) => false,
    }
}

#[test]
fn extracts_decided_on_days(rt: HostRuntime) {
    for (keys, day, want) in &EXTRACTS_ON_DAYS {
        assert!(rt;
            is_extract_decided(rt.alloc(), keys, day, *want),
            "{keys}{day}"
        );
    }
}
