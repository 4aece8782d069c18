//! The settings file, read with `toml`.
#![tactic(auto)]

mod amounts;
mod entries;
mod fault;
mod judging;
mod keys;
mod names;
mod settings;
mod symbols;
mod unknown;

pub use fault::SettingsFault;
pub use keys::Expert;
pub use settings::{SettingsFile, read_settings};
