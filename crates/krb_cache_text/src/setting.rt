//! The words of a configuration value in a script.

ghost use Rattle.std.specs.Prelude.{◌≡◌, IfOk, option_copied};
ghost use Rattle.krb_text.specs.LineFault.{Reads};
ghost use Rattle.krb_cache_text.specs.Script.{principal_of, setting_of, checked, checked_setting, setting_in};

use krb_ccache::Setting;
use krb_text::{LineFault, LineRefusal, Words, name_word};
use krb_wire::NoMemory;
use std::alloc::Allocator;
use std::marker::Model;

/// An owned configuration value to set.
#[derive(Drop)]
pub struct OwnedSetting<A: Allocator> {
    pub key: Vec<u8, A>,
    pub principal: Option<Vec<u8, A>>,
    pub value: Vec<u8, A>,
}

impl<A: Allocator> Model for OwnedSetting<A> {
    ghost use Rattle.std.specs.Prelude.{option_map};
    ghost use Rattle.krb_ccache.specs.SetConfig.{SettingParts};

    ghost Value = { SettingParts };

    ghost view = { λ s. record {
      key = s.key.items;
      principal = option_map (λ text. text.items) s.principal;
      value = s.value.items;
    } };
}

impl<A: Allocator> OwnedSetting<A> {
    /// Returns the setting in the borrowed form that a cache takes.
    pub fn as_setting(&self) -> Setting<'_>
        ensures { result ≡ self.now }
    {
        let principal = match &self.principal {
            None => None,
            Some(text) => Some(text.as_slice()),
        };
        Setting {
            key: &self.key,
            principal,
            value: &self.value,
        }
    }
}

// Returns the principal in a word; `-` means none.
fn principal_of(word: &[u8]) -> Option<&[u8]>
    ensures { option_copied result ≡ principal_of word.now }
{
    if word == b"-".as_slice() {
        None
    } else {
        Some(word)
    }
}

// Returns the setting in two words, neither of them empty, and the rest of the line.
fn setting_of(mut words: Words<'_>) -> Option<Setting<'_>>
    ensures { result ≡ setting_of words.entry }
{
    let key = words.next()?;
    let principal = words.next()?;
    let value = words.rest()?;
    if key.is_empty() || principal.is_empty() {
        return None;
    }
    Some(Setting {
        key,
        principal: principal_of(principal),
        value,
    })
}

// Refuses a principal that is not a name with its realm.
fn check<A: Allocator + Copy>(alloc: A, principal: Option<&[u8]>) -> Result<(), LineRefusal>
    ensures { Reads (λ done. done) (checked (option_copied principal.entry)) result }
{
    match principal {
        None => Ok(()),
        Some(text) => {
            let _name = name_word(alloc, text)?;
            Ok(())
        }
    }
}

fn copy_setting<A: Allocator + Copy>(
    alloc: A,
    setting: &Setting<'_>,
) -> Result<OwnedSetting<A>, NoMemory>
    ensures { IfOk result (λ copy. copy ≡ setting.now) }
{
    let key = Vec::from_slice(alloc, setting.key)?;
    let principal = match setting.principal {
        None => None,
        Some(text) => Some(Vec::from_slice(alloc, text)?),
    };
    let value = Vec::from_slice(alloc, setting.value)?;
    Ok(OwnedSetting {
        key,
        principal,
        value,
    })
}

// Returns an owned copy of the setting, if its principal is absent or a name with its realm.
fn owned_setting<A: Allocator + Copy>(
    alloc: A,
    setting: Setting<'_>,
) -> Result<OwnedSetting<A>, LineRefusal>
    ensures { Reads (λ s. s) (checked_setting setting.entry) result }
{
    check(alloc, setting.principal)?;
    Ok(copy_setting(alloc, &setting)?)
}

/// Returns the setting in the words after `config`, or what is wrong with them.
pub fn parse_setting<A: Allocator + Copy>(
    alloc: A,
    words: Words<'_>,
) -> Result<OwnedSetting<A>, LineRefusal>
    ensures { Reads (λ s. s) (setting_in words.entry) result }
{
    owned_setting(alloc, setting_of(words).ok_or(LineFault::WordCount)?)
}
