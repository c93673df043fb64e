//! A rule as a table of a policy's document has it.
ghost use Rattle.std.specs.Prelude.{◌≡◌, ◌≢◌, IfSome, IsNone, Some, codes, option_and_then};
ghost use Rattle.toml.specs.Data.{as_integer, get_member};
ghost use Rattle.toml.specs.View.{table_view};
ghost use Rattle.ags_text.specs.Names.{is_group_name};
ghost use Rattle.reg_policy.specs.Names.{is_name, verb_text};
ghost use Rattle.reg_policy.specs.Readers.{Gives, GivesWord};
ghost use Rattle.reg_policy.specs.Rules.{IsDayAt, IsPeriodIn, IsEffect, IsEither, IsEntryIn, IsNumber, IsRule, IsVerb, IsWord, IsSettingOf, rule_key, rule_keys};
ghost use Rattle.reg_policy.specs.declared.subject.Verb.{Verb as VerbValue};

use crate::document::{FromTable, copied, string_at};
use crate::error::{NameError, ReadError};
use crate::period::Period;
use crate::rule::{Effect, Rule, WantedEntry};
use crate::{Day, Name, Verb};
use ags_text::{Bytes, is_group_name, is_heading_name};
use std::alloc::Global;
use toml::Table;

impl FromTable for Rule {
    ghost array_key = { rule_key };

    ghost table_keys = { rule_keys };

    ghost says = { IsRule };

    fn array_key() -> &'static str {
        "rule"
    }

    fn table_keys() -> &'static [&'static str] {
        &[
            "number", "effect", "firm", "role", "project", "verb", "group", "owner", "embargo",
            "heading", "value", "from", "until",
        ]
    }

    fn of_table(alloc: Global, table: &Table) -> Result<Rule, ReadError> {
        rule_of(alloc, table)
    }
}

fn rule_of(alloc: Global, table: &Table) -> Result<Rule, ReadError>
    ensures { Gives (IsRule (table_view table.now)) result }
{
    Ok(Rule {
        number: number_at(table)?,
        effect: effect_at(table)?,
        verb: verb_at(table)?,
        own: either_at(table, "owner", "own", "other")?,
        past: either_at(table, "embargo", "past", "running")?,
        firm: name_at(alloc, table, "firm")?,
        role: name_at(alloc, table, "role")?,
        project: name_at(alloc, table, "project")?,
        group: group_at(alloc, table)?,
        entry: entry_at(alloc, table)?,
        period: period_at(table)?,
    })
}

fn number_at(table: &Table) -> Result<u32, ReadError>
    ensures { Gives (IsNumber (get_member (codes "number") (table_view table.now))) result }
{
    let Some(number) = integer_at(table, "number") else {
        return Err(ReadError::BadValue);
    };
    if number < 1 || number > 9999 {
        return Err(ReadError::BadValue);
    }
    Ok(number as u32)
}

/// The integer at a key, if there is one.
fn integer_at(table: &Table, key: &str) -> Option<i64>
    ensures { result ≡ option_and_then as_integer (get_member key.now (table_view table.now)) }
{
    match table.get(key) {
        Some(value) => value.as_integer(),
        None => None,
    }
}

fn effect_at(table: &Table) -> Result<Effect, ReadError>
    ensures { Gives (IsEffect (get_member (codes "effect") (table_view table.now))) result }
{
    match string_at(table, "effect")? {
        Some("permit") => Ok(Effect::Permit),
        Some("deny") => Ok(Effect::Deny),
        _ => Err(ReadError::BadValue),
    }
}

fn verb_at(table: &Table) -> Result<Option<Verb>, ReadError>
    ensures { Gives (IsSettingOf IsVerb (get_member (codes "verb") (table_view table.now))) result }
{
    let Some(word) = word_at(table, "verb")? else {
        return Ok(None);
    };
    match verb_of(word) {
        Some(verb) => Ok(Some(verb)),
        None => Err(ReadError::BadValue),
    }
}

/// The word at a key, if it sets one: `*` sets nothing.
fn word_at<'a>(table: &'a Table, key: &str) -> Result<Option<&'a str>, ReadError>
    ensures { GivesWord (get_member key.now (table_view table.now)) result }
{
    match string_at(table, key)? {
        Some("*") => Ok(None),
        text => Ok(text),
    }
}

/// The verb that has this word.
fn verb_of(word: &str) -> Option<Verb>
    ensures some { IfSome result (λ v. word.now ≡ verb_text v) }
    ensures none { IsNone result → (v : VerbValue) → word.now ≢ verb_text v }
{
    match word {
        "deposit" => Some(Verb::Deposit),
        "check" => Some(Verb::Check),
        "list" => Some(Verb::List),
        "extract" => Some(Verb::Extract),
        "withdraw" => Some(Verb::Withdraw),
        "see" => Some(Verb::See),
        _ => None,
    }
}

/// Whether a key has the first of two words; none where it sets nothing.
fn either_at(table: &Table, key: &str, word: &str, other: &str) -> Result<Option<bool>, ReadError>
    ensures { Gives (IsSettingOf (IsEither word.now other.now) (get_member key.now (table_view table.now))) result }
{
    let Some(text) = word_at(table, key)? else {
        return Ok(None);
    };
    if text == word {
        Ok(Some(true))
    } else if text == other {
        Ok(Some(false))
    } else {
        Err(ReadError::BadValue)
    }
}

fn name_at(alloc: Global, table: &Table, key: &str) -> Result<Option<Name>, ReadError>
    ensures { Gives (IsSettingOf (IsWord is_name) (get_member key.now (table_view table.now))) result }
{
    let Some(word) = word_at(table, key)? else {
        return Ok(None);
    };
    match Name::read(alloc, word) {
        Ok(name) => Ok(Some(name)),
        Err(NameError::BadName) => Err(ReadError::BadValue),
        Err(NameError::NoMemory) => Err(ReadError::NoMemory),
    }
}

fn group_at(alloc: Global, table: &Table) -> Result<Option<Bytes>, ReadError>
    ensures { Gives (IsSettingOf (IsWord is_group_name) (get_member (codes "group") (table_view table.now))) result }
{
    let Some(word) = word_at(table, "group")? else {
        return Ok(None);
    };
    if !is_group_name(word.as_bytes()) {
        return Err(ReadError::BadValue);
    }
    Ok(Some(copied(alloc, word)?))
}

/// `heading` and `value`: both or neither.
fn entry_at(alloc: Global, table: &Table) -> Result<Option<WantedEntry>, ReadError>
    ensures { Gives (IsEntryIn (table_view table.now)) result }
{
    match (string_at(table, "heading")?, string_at(table, "value")?) {
        (None, None) => Ok(None),
        (Some(heading), Some(value)) if is_heading_name(heading.as_bytes()) => {
            let heading = copied(alloc, heading)?;
            let value = copied(alloc, value)?;
            Ok(Some(WantedEntry { heading, value }))
        }
        _ => Err(ReadError::BadValue),
    }
}

/// `from` and `until`, of which the second day is not before the first.
fn period_at(table: &Table) -> Result<Period, ReadError>
    ensures { Gives (IsPeriodIn (table_view table.now)) result }
{
    let from = day_at(table, "from")?;
    let until = day_at(table, "until")?;
    let period = Period { from, until };
    if !period.is_in_order() {
        return Err(ReadError::BadValue);
    }
    Ok(period)
}

/// The day at a key, if there is one.
fn day_at(table: &Table, key: &str) -> Result<Option<Day>, ReadError>
    ensures { Gives (IsDayAt (get_member key.now (table_view table.now))) result }
{
    let Some(text) = string_at(table, key)? else {
        return Ok(None);
    };
    match Day::read(text) {
        Some(day) => Ok(Some(day)),
        None => Err(ReadError::BadValue),
    }
}
