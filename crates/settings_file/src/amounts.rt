//! Keys that hold amounts of money and volumes.
ghost use Rattle.std.specs.Prelude.{◌≡◌, ◌≤◌, ◌*◌, pos, ◌*ℤ◌, ◌≤ℤ◌, option_map, IfOk, Some};
ghost use Rattle.toml.specs.View.{view};
ghost use Rattle.market_types.specs.Ranges.{IsVolume};
ghost use Rattle.settings_file.specs.Amounts.{of_form, amount_in, money_data, money_key, volume_data, volume_key};

use crate::keys::KeyFault;
use decimals::signed;
use toml::Value;

fn of_form(units: Option<i64>) -> Result<i128, KeyFault>
    ensures { result ≡ of_form units }
{
    match units {
        Some(units) => Ok(i128::from(units)),
        None => Err(KeyFault::OutOfRange),
    }
}

fn amount_in(lo: i128, hi: i128, amount: i128) -> Result<i128, KeyFault>
    ensures value { result ≡ amount_in lo hi amount }
    ensures range { IfOk result (λ n. (lo ≤ℤ n) × (n ≤ℤ hi)) }
{
    if lo <= amount && amount <= hi {
        Ok(amount)
    } else {
        Err(KeyFault::OutOfRange)
    }
}

fn cents_of(whole: i64) -> i128
    ensures { result ≡ whole *ℤ pos 100 }
{
    i128::from(whole) * 100
}

fn units_of(whole: i64) -> i128
    ensures { result ≡ whole *ℤ pos 100000000 }
{
    i128::from(whole) * 100_000_000
}

fn money_data(most: u32, value: &Value) -> Result<i128, KeyFault>
    requires { most ≤ 1000000000 }
    ensures { result ≡ money_data most (view value.now) }
{
    if let Some(text) = value.as_str() {
        return of_form(signed(2, u64::from(most), text.as_bytes()));
    }
    match value.as_integer() {
        Some(whole) => Ok(cents_of(whole)),
        None => Err(KeyFault::WrongKind),
    }
}

/// An amount from so many hundredths to so much money; `preset` hundredths where the key is missing.
pub(crate) fn money_key(
    preset: i128,
    lo: i128,
    most: u32,
    value: Option<&Value>,
) -> Result<i128, KeyFault>
    requires most { most ≤ 1000000000 }
    requires preset { (lo ≤ℤ preset) × (preset ≤ℤ pos (most * 100)) }
    ensures value { result ≡ money_key preset lo most (option_map (λ v. view v.now) value.entry) }
    ensures range { IfOk result (λ n. (lo ≤ℤ n) × (n ≤ℤ pos (most * 100))) }
{
    match value {
        None => Ok(preset),
        Some(value) => match money_data(most, value) {
            Ok(cents) => amount_in(lo, i128::from(most) * 100, cents),
            Err(fault) => Err(fault),
        },
    }
}

fn volume_data(value: &Value) -> Result<i128, KeyFault>
    ensures { result ≡ volume_data (view value.now) }
{
    if let Some(text) = value.as_str() {
        return of_form(signed(8, 1_000, text.as_bytes()));
    }
    match value.as_integer() {
        Some(whole) => Ok(units_of(whole)),
        None => Err(KeyFault::WrongKind),
    }
}

fn volume_in(value: &Value) -> Result<i64, KeyFault>
    ensures value { result ≡ volume_key (pos 1) (Some (view value.now)) }
    ensures range { IfOk result IsVolume }
{
    match volume_data(value) {
        Ok(units) => match amount_in(1, 100_000_000_000, units) {
            Ok(units) => Ok(units as i64),
            Err(fault) => Err(fault),
        },
        Err(fault) => Err(fault),
    }
}

/// A volume above 0 and at most 1000, in units of 10^-8; `preset` where the key is missing.
pub(crate) fn volume_key(preset: i64, value: Option<&Value>) -> Result<i64, KeyFault>
    requires { IsVolume preset }
    ensures value { result ≡ volume_key preset (option_map (λ v. view v.now) value.entry) }
    ensures range { IfOk result IsVolume }
{
    match value {
        None => Ok(preset),
        Some(value) => volume_in(value),
    }
}
