//! The callers, each known by a token.
ghost use Rattle.std.specs.Prelude.{◌≡◌, List, IfErr, IfOk, codes, option_map};
ghost use Rattle.std.specs.List.{list_all};
ghost use Rattle.std.specs.Str.{bytes_eq};
ghost use Rattle.toml.specs.Data.{get_member};
ghost use Rattle.toml.specs.View.{table_view};
ghost use Rattle.reg_policy.specs.Callers.{IsCaller, IsText, ReadsCallers, are_unique, caller_key, caller_keys, caller_of};
ghost use Rattle.reg_policy.specs.Names.{is_name, is_token, is_token_byte};
ghost use Rattle.reg_policy.specs.Readers.{Gives};
ghost use Rattle.reg_policy.specs.declared.callers.Credential.{Credential as CredentialValue};

use crate::Name;
use crate::document::{FromTable, copied, read_list, string_at};
use crate::error::{CallersError, NameError, ReadError};
use ags_text::{Bytes, is_within};
use std::alloc::Global;
use std::collections::BTreeSet;
use std::marker::Model;
use toml::Table;

/// Who speaks.
#[derive(Drop)]
#[rattlefmt::skip]
pub struct Caller { pub firm: Name, pub role: Name }

/// A caller and the token that shows who it is.
#[derive(Drop)]
struct Credential {
    token: Bytes,
    caller: Caller,
}

/// The callers, in the order of the text.
pub struct Callers {
    credentials: Vec<Credential>,
}

// Written out, so that no crate that lets one go proves again how its parts are dropped.
impl Drop for Callers {
    fn drop(self) {
        let Callers { credentials: _ } = self;
    }
}

impl Model for Callers {
    ghost Value = { List CredentialValue };

    ghost view = { λ c. c.credentials.items };
}

impl Callers {
    /// The callers that the text lists, or the first refusal that holds of it.
    pub fn read(alloc: Global, text: &str) -> Result<Callers, CallersError>
        ensures reads { ReadsCallers text.now result }
    {
        let credentials = read_list(alloc, text)?;
        if !are_unique(alloc, &credentials)? {
            return Err(CallersError::DuplicateToken);
        }
        Ok(Callers { credentials })
    }

    /// The caller who has the token. The time that this takes does not depend on where a token differs.
    /// No clause says so.
    pub fn find(&self, token: &[u8]) -> Option<&Caller>
        ensures { option_map (λ c. c.now) result ≡ caller_of token.now self.now }
    {
        for credential in &self.credentials {
            if is_same_token(token, credential.token.as_slice()) {
                return Some(&credential.caller);
            }
        }
        None
    }
}

/// Whether two tokens are the same. Each byte of theirs is compared, so the time depends on their lengths alone.
fn is_same_token(a: &[u8], b: &[u8]) -> bool
    ensures { result ≡ bytes_eq a.now b.now }
{
    if a.len() != b.len() {
        return false;
    }
    let mut differ = false;
    for i in 0..a.len() {
        differ |= a[i] != b[i];
    }
    !differ
}

impl FromTable for Credential {
    ghost array_key = { caller_key };

    ghost table_keys = { caller_keys };

    ghost says = { IsCaller };

    fn array_key() -> &'static str {
        "caller"
    }

    fn table_keys() -> &'static [&'static str] {
        &["token", "firm", "role"]
    }

    fn of_table(alloc: Global, table: &Table) -> Result<Credential, ReadError> {
        let token = token_at(alloc, table)?;
        let firm = caller_name_at(alloc, table, "firm")?;
        let role = caller_name_at(alloc, table, "role")?;
        Ok(Credential {
            token,
            caller: Caller { firm, role },
        })
    }
}

fn token_at(alloc: Global, table: &Table) -> Result<Bytes, ReadError>
    ensures { Gives (IsText is_token (get_member (codes "token") (table_view table.now))) result }
{
    let Some(text) = string_at(table, "token")? else {
        return Err(ReadError::BadValue);
    };
    if !is_token(text.as_bytes()) {
        return Err(ReadError::BadValue);
    }
    copied(alloc, text)
}

fn caller_name_at(alloc: Global, table: &Table, key: &str) -> Result<Name, ReadError>
    ensures { Gives (IsText is_name (get_member key.now (table_view table.now))) result }
{
    let Some(text) = string_at(table, key)? else {
        return Err(ReadError::BadValue);
    };
    match Name::read(alloc, text) {
        Ok(name) => Ok(name),
        Err(NameError::BadName) => Err(ReadError::BadValue),
        Err(NameError::NoMemory) => Err(ReadError::NoMemory),
    }
}

/// 1 to 64 characters, each from `!` to `~`.
fn is_token(text: &[u8]) -> bool
    ensures { result ≡ is_token text.now }
{
    is_within(text, 64) && has_token_bytes(text)
}

fn has_token_bytes(text: &[u8]) -> bool
    ensures { result ≡ list_all is_token_byte text.now }
{
    text.iter().all(|b| is_token_byte(*b))
}

fn is_token_byte(b: u8) -> bool
    ensures { result ≡ is_token_byte b }
{
    b'!' <= b && b <= b'~'
}

/// Whether no token occurs twice: none is that of a later caller.
fn are_unique(alloc: Global, credentials: &[Credential]) -> Result<bool, ReadError>
    ensures unique { IfOk result (λ unique. unique ≡ are_unique credentials.now) }
    ensures memory { IfErr result (λ error. error ≡ ReadError.NoMemory) }
{
    let mut later = BTreeSet::new(alloc);
    let mut i = credentials.len();
    while i > 0 {
        i -= 1;
        match later.insert(credentials[i].token.as_slice()) {
            Ok(true) => {}
            Ok(false) => return Ok(false),
            Err(_) => return Err(ReadError::NoMemory),
        }
    }
    Ok(true)
}
