//! What a key may hold.
ghost use Rattle.std.specs.Prelude.{◌≡◌, ◌≤◌, option_map, All, IfOk, IfSome, IsTrue};
ghost use Rattle.std.specs.Option.{option_copied};
ghost use Rattle.toml.specs.Data.{get_member};
ghost use Rattle.toml.specs.View.{view, table_view, items_view};
ghost use Rattle.market_types.specs.Ranges.{IsNameCharacter, IsSymbolName};
ghost use Rattle.tester_settings.specs.Ranges.{IsLetter, IsCurrency};
ghost use Rattle.settings_file.specs.Keys.{rule_of, map_ok, whole_in, whole_data, whole_key, whole_if_any, text_data, word_key, mode_of, period_of, account_of, expert_key, all_of, is_latin_letter, is_visible, is_name_of, text_in, currency_key, name_key, text_key, list_key, table_data};

use market_types::{Mode, Period};
use tester_settings::Account;
use toml::{Table, Value};

/// Whether a command needs the key `expert`.
#[derive(Clone, Copy, Debug, PartialEq, Eq)]
pub enum Expert {
    Needed,
    NotNeeded,
}

/// Why a key breaks a rule.
#[derive(Clone, Copy, Debug, PartialEq, Eq)]
pub(crate) enum KeyFault {
    /// The key is needed and missing.
    Missing,
    /// What it holds is of another kind.
    WrongKind,
    /// What it holds is out of range, or not of its form.
    OutOfRange,
    /// It holds an unknown word.
    UnknownWord,
}

impl KeyFault {
    /// The number of the rule that is broken.
    pub(crate) fn rule(self) -> u8
        ensures { result ≡ rule_of self }
    {
        match self {
            KeyFault::Missing => 3,
            KeyFault::WrongKind => 4,
            KeyFault::OutOfRange => 5,
            KeyFault::UnknownWord => 6,
        }
    }
}

/// What a table holds at a key.
pub(crate) fn value_at<'a>(table: &'a Table, key: &str) -> Option<&'a Value>
    ensures { option_map (λ v. view v.now) result ≡ get_member key.now (table_view table.now) }
{
    table.get(key)
}

/// A whole number from `lo` to `hi`.
fn whole_in(lo: u32, hi: u32, number: i64) -> Result<u32, KeyFault>
    ensures value { result ≡ whole_in lo hi number }
    ensures range { IfOk result (λ n. (lo ≤ n) × (n ≤ hi)) }
{
    if i64::from(lo) <= number && number <= i64::from(hi) {
        Ok(number as u32)
    } else {
        Err(KeyFault::OutOfRange)
    }
}

fn whole_data(lo: u32, hi: u32, value: &Value) -> Result<u32, KeyFault>
    ensures value { result ≡ whole_data lo hi (view value.now) }
    ensures range { IfOk result (λ n. (lo ≤ n) × (n ≤ hi)) }
{
    match value.as_integer() {
        Some(number) => whole_in(lo, hi, number),
        None => Err(KeyFault::WrongKind),
    }
}

/// A whole number, `preset` where the key is missing.
pub(crate) fn whole_key(
    preset: u32,
    lo: u32,
    hi: u32,
    value: Option<&Value>,
) -> Result<u32, KeyFault>
    requires { (lo ≤ preset) × (preset ≤ hi) }
    ensures value { result ≡ whole_key preset lo hi (option_map (λ v. view v.now) value.entry) }
    ensures range { IfOk result (λ n. (lo ≤ n) × (n ≤ hi)) }
{
    match value {
        None => Ok(preset),
        Some(value) => whole_data(lo, hi, value),
    }
}

/// A whole number, where there is one.
pub(crate) fn whole_if_any(lo: u32, hi: u32, value: Option<&Value>) -> Result<Option<u32>, KeyFault>
    ensures value { result ≡ whole_if_any lo hi (option_map (λ v. view v.now) value.entry) }
    ensures range { IfOk result (λ o. IfSome o (λ n. n ≤ hi)) }
{
    match value {
        None => Ok(None),
        Some(value) => match whole_data(lo, hi, value) {
            Ok(number) => Ok(Some(number)),
            Err(fault) => Err(fault),
        },
    }
}

fn text_data(value: &Value) -> Result<&str, KeyFault>
    ensures { map_ok (λ s. s.now) result ≡ text_data (view value.now) }
{
    match value.as_str() {
        Some(text) => Ok(text),
        None => Err(KeyFault::WrongKind),
    }
}

fn mode_of(word: &str) -> Result<Mode, KeyFault>
    ensures { result ≡ mode_of word.now }
{
    if word == "ticks" {
        Ok(Mode::Ticks)
    } else if word == "ohlc" {
        Ok(Mode::Ohlc)
    } else if word == "open" {
        Ok(Mode::Opening)
    } else {
        Err(KeyFault::UnknownWord)
    }
}

/// How quotes are made.
pub(crate) fn mode_key(value: Option<&Value>) -> Result<Mode, KeyFault>
    ensures { result ≡ word_key Mode.Ohlc mode_of (option_map (λ v. view v.now) value.entry) }
{
    match value {
        None => Ok(Mode::Ohlc),
        Some(value) => match text_data(value) {
            Ok(word) => mode_of(word),
            Err(fault) => Err(fault),
        },
    }
}

fn period_of(word: &str) -> Result<Period, KeyFault>
    ensures { result ≡ period_of word.now }
{
    if word == "M1" {
        Ok(Period::M1)
    } else if word == "M5" {
        Ok(Period::M5)
    } else if word == "M15" {
        Ok(Period::M15)
    } else if word == "M30" {
        Ok(Period::M30)
    } else if word == "H1" {
        Ok(Period::H1)
    } else if word == "H4" {
        Ok(Period::H4)
    } else if word == "D1" {
        Ok(Period::D1)
    } else {
        Err(KeyFault::UnknownWord)
    }
}

/// The tested period.
pub(crate) fn period_key(value: Option<&Value>) -> Result<Period, KeyFault>
    ensures { result ≡ word_key Period.M1 period_of (option_map (λ v. view v.now) value.entry) }
{
    match value {
        None => Ok(Period::M1),
        Some(value) => match text_data(value) {
            Ok(word) => period_of(word),
            Err(fault) => Err(fault),
        },
    }
}

fn account_of(word: &str) -> Result<Account, KeyFault>
    ensures { result ≡ account_of word.now }
{
    if word == "netting" {
        Ok(Account::Netting)
    } else if word == "hedging" {
        Ok(Account::Hedging)
    } else {
        Err(KeyFault::UnknownWord)
    }
}

/// How positions are kept.
pub(crate) fn account_key(value: Option<&Value>) -> Result<Account, KeyFault>
    ensures { result ≡ word_key Account.Netting account_of (option_map (λ v. view v.now) value.entry) }
{
    match value {
        None => Ok(Account::Netting),
        Some(value) => match text_data(value) {
            Ok(word) => account_of(word),
            Err(fault) => Err(fault),
        },
    }
}

/// The expert's source.
pub(crate) fn expert_key(expert: Expert, value: Option<&Value>) -> Result<Option<&str>, KeyFault>
    ensures { map_ok option_copied result ≡ expert_key expert (option_map (λ v. view v.now) value.entry) }
{
    match value {
        None => match expert {
            Expert::Needed => Err(KeyFault::Missing),
            Expert::NotNeeded => Ok(None),
        },
        Some(value) => match text_data(value) {
            Ok(text) => Ok(Some(text)),
            Err(fault) => Err(fault),
        },
    }
}

fn is_latin_letter(b: u8) -> bool
    ensures { result ≡ is_latin_letter b }
{
    b'A' <= b && b <= b'Z' || b'a' <= b && b <= b'z'
}

fn is_visible(b: u8) -> bool
    ensures { result ≡ is_visible b }
{
    33 <= b && b <= 126
}

#[tactic(auto, using(crate::proofs::Characters::letters_all))]
fn all_letters(text: &[u8]) -> bool
    ensures value { result ≡ all_of is_latin_letter text.now }
    ensures all { IsTrue result → All IsLetter text.now }
{
    let mut rest = text;
    while let [b, tail @ ..] = rest {
        if !is_latin_letter(*b) {
            return false;
        }
        rest = tail;
    }
    true
}

#[tactic(auto, using(crate::proofs::Characters::visible_all))]
fn all_visible(text: &[u8]) -> bool
    ensures value { result ≡ all_of is_visible text.now }
    ensures all { IsTrue result → All IsNameCharacter text.now }
{
    let mut rest = text;
    while let [b, tail @ ..] = rest {
        if !is_visible(*b) {
            return false;
        }
        rest = tail;
    }
    true
}

fn currency_of(text: &str) -> Result<&str, KeyFault>
    ensures value { map_ok (λ s. s.now) result ≡ text_in (is_name_of 8 is_latin_letter) text.now }
    ensures range { IfOk result (λ s. IsCurrency s.now) }
{
    if 1 <= text.len() && text.len() <= 8 && all_letters(text.as_bytes()) {
        Ok(text)
    } else {
        Err(KeyFault::OutOfRange)
    }
}

/// The account's currency.
pub(crate) fn currency_key(value: Option<&Value>) -> Result<&str, KeyFault>
    ensures value { map_ok (λ s. s.now) result ≡ currency_key (option_map (λ v. view v.now) value.entry) }
    ensures range { IfOk result (λ s. IsCurrency s.now) }
{
    match value {
        None => Ok("USD"),
        Some(value) => match text_data(value) {
            Ok(text) => currency_of(text),
            Err(fault) => Err(fault),
        },
    }
}

fn name_of(text: &str) -> Result<&str, KeyFault>
    ensures value { map_ok (λ s. s.now) result ≡ text_in (is_name_of 32 is_visible) text.now }
    ensures range { IfOk result (λ s. IsSymbolName s.now) }
{
    if 1 <= text.len() && text.len() <= 32 && all_visible(text.as_bytes()) {
        Ok(text)
    } else {
        Err(KeyFault::OutOfRange)
    }
}

/// A symbol's name.
pub(crate) fn name_key(value: Option<&Value>) -> Result<&str, KeyFault>
    ensures value { map_ok (λ s. s.now) result ≡ name_key (option_map (λ v. view v.now) value.entry) }
    ensures range { IfOk result (λ s. IsSymbolName s.now) }
{
    match value {
        None => Err(KeyFault::Missing),
        Some(value) => match text_data(value) {
            Ok(text) => name_of(text),
            Err(fault) => Err(fault),
        },
    }
}

/// A text that is needed.
pub(crate) fn text_key(value: Option<&Value>) -> Result<&str, KeyFault>
    ensures { map_ok (λ s. s.now) result ≡ text_key (option_map (λ v. view v.now) value.entry) }
{
    match value {
        None => Err(KeyFault::Missing),
        Some(value) => text_data(value),
    }
}

/// The entries of a list.
pub(crate) fn list_key(value: Option<&Value>) -> Result<&[Value], KeyFault>
    ensures { map_ok (λ s. items_view s.now) result ≡ list_key (option_map (λ v. view v.now) value.entry) }
{
    match value {
        None => Ok(&[]),
        Some(value) => match value.as_array() {
            Some(items) => Ok(items.as_slice()),
            None => Err(KeyFault::WrongKind),
        },
    }
}

/// A value that is a table.
pub(crate) fn table_data(value: &Value) -> Result<&Table, KeyFault>
    ensures { map_ok (λ t. table_view t.now) result ≡ table_data (view value.now) }
{
    match value.as_table() {
        Some(table) => Ok(table),
        None => Err(KeyFault::WrongKind),
    }
}
