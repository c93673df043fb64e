//! Refusals of stores, as they are printed.

use ags_dict::DictError;
use reg_store::KeepError;
use reg_tables::{AdoptError, CreateError};
use std::fmt::{Display, Write};

const OF_CALLS: [KeepError; 3] = [KeepError::Full, KeepError::Store, KeepError::NoMemory];

const OF_ADOPTING: [AdoptError; 5] = [
    AdoptError::NotRegister,
    AdoptError::Version(7),
    AdoptError::Version(-12),
    AdoptError::Store,
    AdoptError::NoMemory,
];

const OF_MAKING: [CreateError; 4] = [
    CreateError::Dictionary(DictError::NoDict),
    CreateError::NotEmpty,
    CreateError::Store,
    CreateError::NoMemory,
];

/// The refusals of calls, of adopting and of making as they are printed.
const PRINTED: &str = "\
the register is full;the store failed;out of memory;\
not a register;register version 7;register version -12;the store failed;out of memory;\
not a dictionary;the store is not empty;the store failed;out of memory;";

/// Prints refusals; whether there was memory.
fn prints<E: Display>(text: &mut String, refusals: &[E]) -> bool {
    for refusal in refusals {
        if write!(text, "{refusal};").is_err() {
            return false;
        }
    }
    true
}

#[test]
fn refusals_as_printed(rt: HostRuntime) {
    let mut text = String::new(rt.alloc());
    assert!(rt; prints(&mut text, &OF_CALLS));
    assert!(rt; prints(&mut text, &OF_ADOPTING));
    assert!(rt; prints(&mut text, &OF_MAKING));
    assert!(rt; text.as_str() == PRINTED);
}
