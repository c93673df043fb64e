//! The worked examples: what no clause says. Without memory no answer is the expected one.
mod caller;
mod callers;
mod decisions;
mod nested;
mod policies;
mod rows;

use reg_policy::{CallersError, Day, Name, NameError, PolicyError};
use std::alloc::{AllocError, Global};
use std::cmp::Ordering;
use std::fmt::{Display, Write};

const NAMES: [(&str, bool); 9] = [
    ("N1", true),
    ("Delta", true),
    ("a-b_C-9", true),
    ("12345678901234567890123456789012", true),
    ("", false),
    ("N 1", false),
    ("N.1", false),
    ("é", false),
    ("123456789012345678901234567890123", false),
];

/// Whether a text is read as a name and shown as it was, or is refused as none.
fn is_read(alloc: Global, text: &str, want: bool) -> bool {
    match Name::read(alloc, text) {
        Ok(name) => want && name.text() == text,
        Err(error) => !want && error == NameError::BadName,
    }
}

#[test]
fn names(rt: HostRuntime) {
    for (text, want) in &NAMES {
        assert!(rt; is_read(rt.alloc(), text, *want), "{text}");
    }
}

const ORDERS: [(&str, &str, Ordering); 4] = [
    ("Delta", "Delta", Ordering::Equal),
    ("Delta", "Delt", Ordering::Greater),
    ("Delta", "Gamma", Ordering::Less),
    ("a", "B", Ordering::Greater),
];

/// A copy of the name that a text is.
fn copied(alloc: Global, text: &str) -> Option<Name> {
    let Ok(name) = Name::read(alloc, text) else {
        return None;
    };
    name.clone().ok()
}

/// Whether a copy of one name has this order to another name, and equals it where it should.
fn are_ordered(alloc: Global, one: &str, other: &str, want: Ordering) -> bool {
    let Some(copy) = copied(alloc, one) else {
        return false;
    };
    let Ok(name) = Name::read(alloc, other) else {
        return false;
    };
    copy.cmp(&name) == want && (copy == name) == (want == Ordering::Equal)
}

#[test]
fn names_compared_and_copied(rt: HostRuntime) {
    for (one, other, want) in &ORDERS {
        assert!(rt; are_ordered(rt.alloc(), one, other, *want), "{one} {other}");
    }
}

const DAYS: [(&str, Option<i32>); 9] = [
    ("1970-01-01", Some(0)),
    ("2024-06-01", Some(19_875)),
    ("9999-12-31", Some(2_932_896)),
    ("2024-6-1", None),
    ("2023-02-29", None),
    ("1969-12-31", None),
    ("2024-06-01 ", None),
    ("2024/06/01", None),
    ("", None),
];

/// Whether a day has a number, a text, and is the day of its number.
fn is_day(day: Day, number: i32, text: &str) -> bool {
    day.number() == number
        && day.text().as_slice() == text.as_bytes()
        && Day::new(number) == Some(day)
}

/// Whether a text is read as the day of a number, or as none.
fn is_dated(text: &str, want: Option<i32>) -> bool {
    match (Day::read(text), want) {
        (Some(day), Some(number)) => is_day(day, number, text),
        (None, None) => true,
        _ => false,
    }
}

#[test]
fn days(rt: HostRuntime) {
    for (text, want) in &DAYS {
        assert!(rt; is_dated(text, *want), "{text}");
    }
}

#[test]
fn numbers_of_no_day(rt: HostRuntime) {
    for number in [-1, 2_932_897] {
        assert!(rt; Day::new(number).is_none(), "{number}");
    }
}

/// Texts, one after the other.
fn joined(alloc: Global, texts: &[&str]) -> Result<String, AllocError> {
    let mut whole = String::new(alloc);
    for text in texts {
        whole.push_str(text)?;
    }
    Ok(whole)
}

const POLICY_ERRORS: [PolicyError; 5] = [
    PolicyError::Syntax,
    PolicyError::UnknownKey,
    PolicyError::BadValue,
    PolicyError::Order,
    PolicyError::NoMemory,
];

const CALLERS_ERRORS: [CallersError; 5] = [
    CallersError::Syntax,
    CallersError::UnknownKey,
    CallersError::BadValue,
    CallersError::DuplicateToken,
    CallersError::NoMemory,
];

const NAME_ERRORS: [NameError; 2] = [NameError::BadName, NameError::NoMemory];

/// The refusals of policies, of callers and of names as they are printed.
const PRINTED: &str = "\
not TOML;unknown key;bad value;the numbers do not rise;out of memory;\
not TOML;unknown key;bad value;a token stands twice;out of memory;\
not a name;out of memory;";

/// Prints refusals; whether there was memory.
fn prints<E: Display>(text: &mut String, refusals: &[E]) -> bool {
    for refusal in refusals {
        if write!(text, "{refusal};").is_err() {
            return false;
        }
    }
    true
}

#[test]
fn refusals_as_printed(rt: HostRuntime) {
    let mut text = String::new(rt.alloc());
    assert!(rt; prints(&mut text, &POLICY_ERRORS));
    assert!(rt; prints(&mut text, &CALLERS_ERRORS));
    assert!(rt; prints(&mut text, &NAME_ERRORS));
    assert!(rt; text.as_str() == PRINTED);
}
