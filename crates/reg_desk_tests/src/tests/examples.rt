//! Requests to a register, and their answers. A deposit is sent on 2024-05-01 under an embargo until 2024-06-01 where
//! nothing else is said.

use super::bodies::{
    A, A_LONG, A_LONGEST, A_OTHER, A_PLAIN, A_PROJECT_LAST, A_SPACED, A_TOO_LONG, A_UNENDED, B,
    B_BOREHOLE, B_FILED, B_LINKED, B_LINKED_HIDDEN, B_LINKED_TO_ITSELF, B_SHOWN, C, C_SHOWN,
};
use super::policies::{Added, FROM_SECOND_JUNE, IN_JUNE, WITHDRAWALS};
use super::{Ask, Example, Line, Step, Want};

/// As many deposits as a register may hold.
pub const MOST: u32 = 999_999;

const SENT: &str = "2024-05-01";

pub const UNTIL: &str = "2024-06-01";

pub const FIRST: Want = Want::Receipt(1, UNTIL);

pub const SECOND: Want = Want::Receipt(2, UNTIL);

/// The first deposit where it is the only one.
pub const LISTED: Want = Want::Lists(&[Line(1, "Delta", UNTIL)]);

/// The examples.
pub static EXAMPLES: [Example; 10] = [
    Example {
        name: "a deposit that the policy denies",
        limit: MOST,
        steps: &[
            Step("t-gamma", SENT, Ask::Deposit(A, UNTIL), Want::Denied(5)),
            Step("t-echo", SENT, Ask::Deposit(A, UNTIL), Want::Denied(0)),
            Step("t-delta", SENT, Ask::List, Want::Lists(&[])),
            Step("t-delta", SENT, Ask::Deposit(A, UNTIL), FIRST),
        ],
    },
    Example {
        name: "a body that is refused",
        limit: MOST,
        steps: &[
            Step("t-delta", SENT, Ask::Check(A), Want::Says("clean")),
            Step(
                "t-delta",
                SENT,
                Ask::Check(A_UNENDED),
                Want::Finding("2b", 29),
            ),
            Step(
                "t-delta",
                SENT,
                Ask::Deposit(A_UNENDED, UNTIL),
                Want::Finding("2b", 29),
            ),
        ],
    },
    Example {
        name: "a deposit that is repeated",
        limit: MOST,
        steps: &[
            Step("t-delta", SENT, Ask::Deposit(A, UNTIL), FIRST),
            Step("t-delta", SENT, Ask::Deposit(A, "2030-01-01"), FIRST),
            Step("t-foxtrot", SENT, Ask::Deposit(A, UNTIL), SECOND),
        ],
    },
    Example {
        name: "a register of one deposit",
        limit: 1,
        steps: &[
            Step("t-delta", SENT, Ask::Deposit(A, UNTIL), FIRST),
            Step(
                "t-delta",
                SENT,
                Ask::Deposit(A_OTHER, UNTIL),
                Want::Says("full"),
            ),
            Step("t-delta", SENT, Ask::Deposit(A, UNTIL), FIRST),
        ],
    },
    Example {
        name: "rows that are hidden, and what is asked",
        limit: MOST,
        steps: &[
            Step("t-delta", SENT, Ask::Deposit(B, UNTIL), FIRST),
            Step("t-echo", UNTIL, Ask::Extract(1, &[]), Want::Gives(B_SHOWN)),
            Step("t-delta", UNTIL, Ask::Extract(1, &[]), Want::Gives(B)),
            Step(
                "t-echo",
                UNTIL,
                Ask::Extract(1, &[b"LNMC"]),
                Want::Gives(B_SHOWN),
            ),
            Step(
                "t-echo",
                UNTIL,
                Ask::Extract(1, &[b"LOCA"]),
                Want::Gives(B_BOREHOLE),
            ),
            Step("t-echo", UNTIL, Ask::Check(B), Want::Says("clean")),
            Step("t-echo", UNTIL, Ask::Check(B_SHOWN), Want::Says("clean")),
            Step("t-echo", UNTIL, Ask::Check(B_BOREHOLE), Want::Says("clean")),
        ],
    },
    Example {
        name: "a ring of record links",
        limit: MOST,
        steps: &[
            Step("t-delta", SENT, Ask::Deposit(C, UNTIL), FIRST),
            Step("t-echo", UNTIL, Ask::Extract(1, &[]), Want::Gives(C_SHOWN)),
            Step("t-delta", UNTIL, Ask::Extract(1, &[]), Want::Gives(C)),
            Step("t-echo", UNTIL, Ask::Check(C), Want::Says("clean")),
            Step("t-echo", UNTIL, Ask::Check(C_SHOWN), Want::Says("clean")),
        ],
    },
    Example {
        name: "an embargo",
        limit: MOST,
        steps: &[
            Step("t-delta", SENT, Ask::Deposit(A, UNTIL), FIRST),
            Step("t-echo", UNTIL, Ask::Extract(1, &[]), Want::Gives(A)),
            Step(
                "t-echo",
                "2024-05-31",
                Ask::Extract(1, &[]),
                Want::Says("unknown"),
            ),
            Step(
                "t-echo",
                "2024-05-31",
                Ask::Extract(999, &[]),
                Want::Says("unknown"),
            ),
            Step("t-echo", "2024-05-31", Ask::List, Want::Lists(&[])),
            Step(
                "t-delta",
                "2024-05-31",
                Ask::Extract(1, &[]),
                Want::Gives(A),
            ),
            Step("t-delta", "2024-05-31", Ask::List, LISTED),
            Step("t-echo", UNTIL, Ask::List, LISTED),
        ],
    },
    Example {
        name: "a file that is spelled with spaces",
        limit: MOST,
        steps: &[
            Step("t-delta", SENT, Ask::Deposit(A_SPACED, UNTIL), FIRST),
            Step("t-echo", UNTIL, Ask::Extract(1, &[]), Want::Gives(A_PLAIN)),
        ],
    },
    Example {
        name: "what the row of PROJ reaches, and PROJ as the last group",
        limit: MOST,
        steps: &[
            Step("t-delta", SENT, Ask::Deposit(B_LINKED_HIDDEN, UNTIL), FIRST),
            Step("t-delta", SENT, Ask::Deposit(B_LINKED, UNTIL), SECOND),
            Step(
                "t-delta",
                SENT,
                Ask::Deposit(B_FILED, UNTIL),
                Want::Receipt(3, UNTIL),
            ),
            Step(
                "t-delta",
                SENT,
                Ask::Deposit(A_PROJECT_LAST, UNTIL),
                Want::Receipt(4, UNTIL),
            ),
            Step(
                "t-delta",
                SENT,
                Ask::Deposit(B_LINKED_TO_ITSELF, UNTIL),
                Want::Receipt(5, UNTIL),
            ),
            Step(
                "t-echo",
                UNTIL,
                Ask::List,
                Want::Lists(&[
                    Line(2, "Delta", UNTIL),
                    Line(3, "Delta", UNTIL),
                    Line(4, "Delta", UNTIL),
                    Line(5, "Delta", UNTIL),
                ]),
            ),
            Step("t-echo", SENT, Ask::List, Want::Lists(&[])),
            Step(
                "t-delta",
                SENT,
                Ask::List,
                Want::Lists(&[
                    Line(1, "Delta", UNTIL),
                    Line(2, "Delta", UNTIL),
                    Line(3, "Delta", UNTIL),
                    Line(4, "Delta", UNTIL),
                    Line(5, "Delta", UNTIL),
                ]),
            ),
        ],
    },
    Example {
        name: "a withdrawal of which the policy says nothing",
        limit: MOST,
        steps: &[
            Step("t-delta", SENT, Ask::Deposit(A, UNTIL), FIRST),
            Step("t-delta", SENT, Ask::Withdraw(1), Want::Denied(0)),
            Step("t-delta", SENT, Ask::List, LISTED),
        ],
    },
];

/// Long bodies, and one that is too long.
pub static LONG: [Step; 4] = [
    Step("t-delta", SENT, Ask::Deposit(A_LONG, UNTIL), FIRST),
    Step("t-delta", SENT, Ask::Deposit(A_LONGEST, UNTIL), SECOND),
    Step(
        "t-delta",
        SENT,
        Ask::Check(A_TOO_LONG),
        Want::Says("too large"),
    ),
    Step(
        "t-delta",
        SENT,
        Ask::Deposit(A_TOO_LONG, UNTIL),
        Want::Says("too large"),
    ),
];

/// The second deposit where the first is withdrawn.
const UNWITHDRAWN: Want = Want::Lists(&[Line(2, "Foxtrot", UNTIL)]);

/// The examples under a policy with lines more.
pub static CHANGED: [(Added, Example); 4] = [
    (
        WITHDRAWALS,
        Example {
            name: "a withdrawal",
            limit: MOST,
            steps: &[
                Step("t-delta", SENT, Ask::Deposit(A, UNTIL), FIRST),
                Step("t-foxtrot", SENT, Ask::Deposit(A, UNTIL), SECOND),
                Step("t-echo", SENT, Ask::Withdraw(1), Want::Denied(0)),
                Step("t-foxtrot", SENT, Ask::Withdraw(1), Want::Says("unknown")),
                Step(
                    "t-delta",
                    SENT,
                    Ask::WithdrawFrom("N2", 1),
                    Want::Says("unknown"),
                ),
                Step("t-delta", SENT, Ask::Withdraw(9), Want::Says("unknown")),
                Step("t-delta", SENT, Ask::Withdraw(0), Want::Says("unknown")),
                Step("t-delta", SENT, Ask::Extract(1, &[]), Want::Gives(A)),
                Step("t-delta", SENT, Ask::Withdraw(1), Want::Withdrawn(1)),
                Step("t-delta", SENT, Ask::Withdraw(1), Want::Withdrawn(1)),
                Step(
                    "t-delta",
                    UNTIL,
                    Ask::Extract(1, &[]),
                    Want::Says("unknown"),
                ),
                Step("t-delta", UNTIL, Ask::List, UNWITHDRAWN),
                Step("t-delta", UNTIL, Ask::Deposit(A, "2030-01-01"), FIRST),
                Step("t-delta", UNTIL, Ask::List, UNWITHDRAWN),
                Step("t-echo", UNTIL, Ask::Extract(2, &[]), Want::Gives(A)),
            ],
        },
    ),
    (
        WITHDRAWALS,
        Example {
            name: "a withdrawal from a register of one deposit",
            limit: 1,
            steps: &[
                Step("t-delta", SENT, Ask::Deposit(A, UNTIL), FIRST),
                Step("t-delta", SENT, Ask::Withdraw(1), Want::Withdrawn(1)),
                Step(
                    "t-delta",
                    SENT,
                    Ask::Deposit(A_OTHER, UNTIL),
                    Want::Says("full"),
                ),
                Step("t-delta", SENT, Ask::Deposit(A, UNTIL), FIRST),
            ],
        },
    ),
    (
        IN_JUNE,
        Example {
            name: "the days of a rule on requests",
            limit: MOST,
            steps: &[
                Step("t-delta", SENT, Ask::Deposit(A, UNTIL), FIRST),
                Step(
                    "t-echo",
                    "2024-05-31",
                    Ask::Extract(1, &[]),
                    Want::Denied(0),
                ),
                Step("t-echo", "2024-06-01", Ask::Extract(1, &[]), Want::Gives(A)),
                Step("t-echo", "2024-06-30", Ask::Extract(1, &[]), Want::Gives(A)),
                Step(
                    "t-echo",
                    "2024-07-01",
                    Ask::Extract(1, &[]),
                    Want::Denied(0),
                ),
            ],
        },
    ),
    (
        FROM_SECOND_JUNE,
        Example {
            name: "the day of a rule on rows",
            limit: MOST,
            steps: &[
                Step("t-delta", SENT, Ask::Deposit(B, UNTIL), FIRST),
                Step(
                    "t-echo",
                    "2024-06-01",
                    Ask::Extract(1, &[]),
                    Want::Says("unknown"),
                ),
                Step(
                    "t-echo",
                    "2024-06-02",
                    Ask::Extract(1, &[]),
                    Want::Gives(B_SHOWN),
                ),
            ],
        },
    ),
];
