//! The parameters of a request.
ghost use Rattle.std.specs.Prelude.{◌≡◌, Ok};
ghost use Rattle.std.specs.Cow.{cow_str_bytes};
ghost use Rattle.form_urlencoded.specs.Form.{raw_pairs};
ghost use Rattle.reg_request.specs.Asks.{sought_at};
ghost use Rattle.reg_http.specs.Agree.{IsAsDefined};
ghost use Rattle.reg_http.specs.Queries.{bare, decoded, embargo_in, extract_in, number_in_path, project_in_path};
ghost use Rattle.reg_http.specs.Queries.{sought_in, value_in, value_of};
ghost use Rattle.reg_http.specs.Views.{given_text, itself};

use crate::error::Refusal;
use form_urlencoded::{decode, raw_pairs};
use reg_policy::{Day, Name, NameError, Verb};
use reg_request::{Ask, lists_groups, number_of_deposit};
use std::alloc::Global;
use std::borrow::CowStr;

/// What the parameters of route and query ask.
pub(crate) fn read_query<'b>(
    alloc: Global,
    verb: Verb,
    number: &str,
    query: &'b [u8],
    day: Day,
) -> Result<Ask<'b>, Refusal>
    ensures { IsAsDefined sought_at (sought_in verb number.now (raw_pairs query.now) day) result }
{
    match verb {
        Verb::Check => bare(query, Ask::Check),
        Verb::Deposit => deposit_ask(day, value_of(alloc, query, "embargo")?),
        Verb::List => bare(query, Ask::List),
        Verb::Extract => extract_ask(number_in_path(number)?, value_of(alloc, query, "groups")?),
        Verb::Withdraw => bare(query, Ask::Withdraw(number_in_path(number)?)),
        Verb::See => Err(Refusal::Method),
    }
}

/// The deposit that asks for this embargo, that of the day of serving where none is given.
fn deposit_ask<'b>(day: Day, text: Option<CowStr<'b>>) -> Result<Ask<'b>, Refusal>
    ensures { IsAsDefined sought_at (embargo_in day (given_text text.entry)) result }
{
    match text {
        None => Ok(Ask::Deposit(day)),
        Some(text) => match Day::read(text.as_str()) {
            Some(embargo) => Ok(Ask::Deposit(embargo)),
            None => Err(Refusal::BadParameter),
        },
    }
}

/// The extract of a deposit that asks for these groups.
fn extract_ask<'b>(number: u32, text: Option<CowStr<'b>>) -> Result<Ask<'b>, Refusal>
    ensures { IsAsDefined sought_at (extract_in number (given_text text.entry)) result }
{
    match text {
        None => Ok(Ask::Extract(number, None)),
        Some(text) => {
            if lists_groups(text.as_bytes()) {
                Ok(Ask::Extract(number, Some(text)))
            } else {
                Err(Refusal::BadParameter)
            }
        }
    }
}

/// The number of a deposit in a path.
fn number_in_path(number: &str) -> Result<u32, Refusal>
    ensures { result ≡ number_in_path number.now }
{
    number_of_deposit(number.as_bytes()).ok_or(Refusal::BadParameter)
}

/// What has no parameter: any that is given is refused.
fn bare<'b>(query: &[u8], ask: Ask<'b>) -> Result<Ask<'b>, Refusal>
    ensures { IsAsDefined sought_at (bare (sought_at ask.entry) (raw_pairs query.now)) result }
{
    match raw_pairs(query).next() {
        None => Ok(ask),
        Some(_) => Err(Refusal::BadParameter),
    }
}

/// The value of the parameter of this name, if it is given.
/// Any other parameter is refused, and a second one of this name.
fn value_of<'b>(alloc: Global, query: &'b [u8], name: &str) -> Result<Option<CowStr<'b>>, Refusal>
    ensures { IsAsDefined given_text (value_of name.now (raw_pairs query.now)) result }
{
    let mut pairs = raw_pairs(query);
    let Some((key, value)) = pairs.next() else {
        return Ok(None);
    };
    if pairs.next().is_some() {
        return Err(Refusal::BadParameter);
    }
    Ok(Some(value_in(alloc, key, value, name)?))
}

/// The value of a parameter, if it is the one of this name.
fn value_in<'b>(
    alloc: Global,
    key: &[u8],
    value: &'b [u8],
    name: &str,
) -> Result<CowStr<'b>, Refusal>
    ensures { IsAsDefined cow_str_bytes (value_in key.now value.now name.now) result }
{
    let key = decoded(alloc, key)?;
    if key.as_bytes() != name.as_bytes() {
        return Err(Refusal::BadParameter);
    }
    decoded(alloc, value)
}

/// A name or a value of the query: `+` and percent escapes are decoded.
fn decoded<'b>(alloc: Global, encoded: &'b [u8]) -> Result<CowStr<'b>, Refusal>
    ensures { IsAsDefined cow_str_bytes (Ok (decoded encoded.now)) result }
{
    match decode(alloc, encoded) {
        Ok(text) => Ok(text),
        Err(_) => Err(Refusal::OutOfMemory),
    }
}

/// The project that a part of the path names.
pub(crate) fn project_in_path(alloc: Global, text: &str) -> Result<Name, Refusal>
    ensures { IsAsDefined itself (project_in_path text.now) result }
{
    match Name::read(alloc, text) {
        Ok(name) => Ok(name),
        Err(NameError::BadName) => Err(Refusal::BadParameter),
        Err(NameError::NoMemory) => Err(Refusal::OutOfMemory),
    }
}
