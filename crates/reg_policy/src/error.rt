//! Why a text is refused.
ghost use Rattle.std.specs.Prelude.{◌≡◌};
ghost use Rattle.reg_policy.specs.Callers.{callers_error};
ghost use Rattle.reg_policy.specs.Rules.{policy_error};

use thiserror::Error;

/// Why a text is not read as a name.
#[derive(Clone, Copy, Debug, PartialEq, Eq, Error)]
pub enum NameError {
    /// It is no name.
    #[error("not a name")]
    BadName,
    /// Memory was refused.
    #[error("out of memory")]
    NoMemory,
}

/// Why a text is not read as a policy. Each is looked for in the whole document before the next.
#[derive(Clone, Copy, Debug, PartialEq, Eq, Error)]
pub enum PolicyError {
    /// It is no TOML.
    #[error("not TOML")]
    Syntax,
    /// A key is none of a policy or of a rule.
    #[error("unknown key")]
    UnknownKey,
    /// A value is of a wrong kind or form, or missing.
    #[error("bad value")]
    BadValue,
    /// The numbers of the rules do not rise strictly.
    #[error("the numbers do not rise")]
    Order,
    /// Memory was refused.
    #[error("out of memory")]
    NoMemory,
}

impl From<ReadError> for PolicyError {
    ghost from_gives = { λ error e. e ≡ policy_error error };

    fn from(error: ReadError) -> PolicyError {
        match error {
            ReadError::Syntax => PolicyError::Syntax,
            ReadError::UnknownKey => PolicyError::UnknownKey,
            ReadError::BadValue => PolicyError::BadValue,
            ReadError::NoMemory => PolicyError::NoMemory,
        }
    }
}

/// Why a text is not read as callers. Each is looked for in the whole document before the next.
#[derive(Clone, Copy, Debug, PartialEq, Eq, Error)]
pub enum CallersError {
    /// It is no TOML.
    #[error("not TOML")]
    Syntax,
    /// A key is none of the callers or of a caller.
    #[error("unknown key")]
    UnknownKey,
    /// A value is of a wrong kind or form, or missing.
    #[error("bad value")]
    BadValue,
    /// Two callers have one token.
    #[error("a token stands twice")]
    DuplicateToken,
    /// Memory was refused.
    #[error("out of memory")]
    NoMemory,
}

impl From<ReadError> for CallersError {
    ghost from_gives = { λ error e. e ≡ callers_error error };

    fn from(error: ReadError) -> CallersError {
        match error {
            ReadError::Syntax => CallersError::Syntax,
            ReadError::UnknownKey => CallersError::UnknownKey,
            ReadError::BadValue => CallersError::BadValue,
            ReadError::NoMemory => CallersError::NoMemory,
        }
    }
}

/// Why a document, or a part of it, cannot be read.
#[derive(Clone, Copy)]
pub(crate) enum ReadError {
    /// The text is no TOML.
    Syntax,
    /// A key is none of those that may be there.
    UnknownKey,
    /// A value is of a wrong kind or form, or missing.
    BadValue,
    /// Memory was refused.
    NoMemory,
}
