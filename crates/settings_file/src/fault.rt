//! Why settings could not be read.
ghost use Rattle.std.specs.Prelude.{◌≡◌, ◌++◌};
ghost use Rattle.settings_file.specs.Faults.{Tells};
ghost use Rattle.settings_file.specs.Keys.{rule_of};

use crate::keys::KeyFault;
use fx8::{OutOfMemory, Text8};
use std::alloc::Global;
use thiserror::Error;

/// Why settings could not be read.
#[derive(Debug, Drop, Error)]
pub enum SettingsFault {
    /// The first rule that is broken, from 1 to 9, with the key that breaks it.
    #[error("the settings break rule {rule}")]
    Rule { rule: u8, key: Text8 },
    /// There was no memory.
    #[error("out of memory")]
    OutOfMemory,
}

impl From<OutOfMemory> for SettingsFault {
    ghost use Rattle.std.specs.Prelude.{◌≡◌};
    ghost use Rattle.settings_file.specs.declared.fault.SettingsFault.TheVariants as fault;

    ghost from_gives = { λ _ fault_given. fault_given ≡ fault.OutOfMemory };

    fn from(_error: OutOfMemory) -> SettingsFault {
        SettingsFault::OutOfMemory
    }
}

/// The fault of a key whose full name is in two parts.
pub(crate) fn broken(alloc: Global, rule: u8, prefix: &[u8], key: &str) -> SettingsFault
    ensures { Tells rule (prefix.now ++ key.now) result }
{
    let mut text = match Text8::from_slice(alloc, prefix) {
        Ok(text) => text,
        Err(_) => return SettingsFault::OutOfMemory,
    };
    match text.extend_from_slice(key.as_bytes()) {
        Ok(()) => SettingsFault::Rule { rule, key: text },
        Err(_) => SettingsFault::OutOfMemory,
    }
}

/// The fault of a key that breaks a rule, whose full name is in two parts.
pub(crate) fn key_fault(alloc: Global, fault: KeyFault, prefix: &[u8], key: &str) -> SettingsFault
    ensures { Tells (rule_of fault) (prefix.now ++ key.now) result }
{
    broken(alloc, fault.rule(), prefix, key)
}
