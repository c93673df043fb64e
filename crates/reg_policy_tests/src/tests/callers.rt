//! Callers that are read, that are refused, and that are found.
use super::joined;
use reg_policy::{Callers, CallersError};
use std::alloc::Global;

/// What comes before a token, and after it.
const TOKEN: &str = "[[caller]]\ntoken = \"";

const WHO: &str = "\"\nfirm = \"A\"\nrole = \"b\"\n";

/// 64 characters.
const LONGEST: &str = "1234567890123456789012345678901234567890123456789012345678901234";

/// Callers in three parts, and what reading them refuses.
#[derive(Drop)]
struct Signed {
    head: &'static str,
    text: &'static str,
    tail: &'static str,
    want: Option<CallersError>,
}

const CALLERS: [Signed; 12] = [
    Signed {
        head: "",
        text: "[[caller",
        tail: "",
        want: Some(CallersError::Syntax),
    },
    Signed {
        head: "",
        text: "rule = []\n",
        tail: "",
        want: Some(CallersError::UnknownKey),
    },
    Signed {
        head: "",
        text: "[[caller]]\ntoken = \"a b\"\n[[caller]]\ncolour = 1\n",
        tail: "",
        want: Some(CallersError::UnknownKey),
    },
    Signed {
        head: "",
        text: "[[caller]]\ntoken = \"a\"\nfirm = \"A\"\n",
        tail: "",
        want: Some(CallersError::BadValue),
    },
    Signed {
        head: "",
        text: "[[caller]]\ntoken = \"a\"\nfirm = \"A\"\nrole = \"*\"\n",
        tail: "",
        want: Some(CallersError::BadValue),
    },
    Signed {
        head: "",
        text: "[[caller]]\ntoken = \"a\"\nfirm = \"A\"\nrole = \"b\"\n[[caller]]\ntoken = \"c\"\nfirm = \"A\"\nrole = \"b\"\n[[caller]]\ntoken = \"a\"\nfirm = \"B\"\nrole = \"b\"\n",
        tail: "",
        want: Some(CallersError::DuplicateToken),
    },
    Signed {
        head: TOKEN,
        text: "!~",
        tail: WHO,
        want: None,
    },
    Signed {
        head: TOKEN,
        text: LONGEST,
        tail: WHO,
        want: None,
    },
    Signed {
        head: TOKEN,
        text: "",
        tail: WHO,
        want: Some(CallersError::BadValue),
    },
    Signed {
        head: TOKEN,
        text: "a b",
        tail: WHO,
        want: Some(CallersError::BadValue),
    },
    Signed {
        head: TOKEN,
        text: "é",
        tail: WHO,
        want: Some(CallersError::BadValue),
    },
    Signed {
        head: TOKEN,
        text: "12345678901234567890123456789012345678901234567890123456789012345",
        tail: WHO,
        want: Some(CallersError::BadValue),
    },
];

/// The callers that the texts spell.
fn callers_of(alloc: Global, texts: &[&str]) -> Result<Callers, CallersError> {
    match joined(alloc, texts) {
        Ok(text) => Callers::read(alloc, text.as_str()),
        Err(_) => Err(CallersError::NoMemory),
    }
}

/// Whether callers are read, or refused as wanted.
fn are_callers(alloc: Global, case: &Signed) -> bool {
    match callers_of(alloc, &[case.head, case.text, case.tail]) {
        Ok(_) => case.want.is_none(),
        Err(error) => case.want == Some(error),
    }
}

#[test]
fn callers_read_or_refused(rt: HostRuntime) {
    for case in &CALLERS {
        assert!(rt; are_callers(rt.alloc(), case), "{}", case.text);
    }
}

/// Callers, a token, and the firm and the role of its caller; none of either where there is no such caller.
#[derive(Drop)]
struct Token {
    callers: &'static str,
    token: &'static str,
    firm: &'static str,
    role: &'static str,
}

const TOKENS: [Token; 9] = [
    Token {
        callers: samples_of_tests::CALLERS,
        token: "t-delta",
        firm: "Delta",
        role: "contractor",
    },
    Token {
        callers: samples_of_tests::CALLERS,
        token: "t-gamma",
        firm: "Gamma",
        role: "contractor",
    },
    Token {
        callers: samples_of_tests::CALLERS,
        token: "t-foxtrot",
        firm: "Foxtrot",
        role: "contractor",
    },
    Token {
        callers: samples_of_tests::CALLERS,
        token: "t-echo",
        firm: "Echo",
        role: "consultant",
    },
    Token {
        callers: samples_of_tests::CALLERS,
        token: "",
        firm: "",
        role: "",
    },
    Token {
        callers: samples_of_tests::CALLERS,
        token: "t-ech",
        firm: "",
        role: "",
    },
    Token {
        callers: samples_of_tests::CALLERS,
        token: "t-echoo",
        firm: "",
        role: "",
    },
    Token {
        callers: samples_of_tests::CALLERS,
        token: "T-ECHO",
        firm: "",
        role: "",
    },
    Token {
        callers: "",
        token: "t-echo",
        firm: "",
        role: "",
    },
];

/// Whether the caller of a token is of the wanted firm and role, or is none.
fn is_found(callers: &Callers, want: &Token) -> bool {
    match callers.find(want.token.as_bytes()) {
        Some(caller) => caller.firm.text() == want.firm && caller.role.text() == want.role,
        None => want.firm.is_empty(),
    }
}

/// Whether the callers are read, with the caller of the token.
fn is_listed(alloc: Global, want: &Token) -> bool {
    match Callers::read(alloc, want.callers) {
        Ok(callers) => is_found(&callers, want),
        Err(_) => false,
    }
}

#[test]
fn callers_found(rt: HostRuntime) {
    for want in &TOKENS {
        assert!(rt; is_listed(rt.alloc(), want), "{}", want.token);
    }
}
