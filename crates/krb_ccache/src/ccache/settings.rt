//! Setting configuration values in a cache: the entry that is added, and those that are removed.

ghost use Rattle.std.specs.Prelude.{◌≡◌, [], true, Ok, Err, Some, IfOk, IfErr, OnOk, option_copied};
ghost use Rattle.krb_wire.specs.Reading.{items_of, principal_parts};
ghost use Rattle.krb_walk.specs.Rules.{PutGives};
ghost use Rattle.krb_walk.specs.Events.{HadMemory};
ghost use Rattle.krb_walk.specs.Store.{end_of};
ghost use Rattle.krb_ccache.specs.declared.version.Version.TheVariants.{V4};
ghost use Rattle.krb_ccache.specs.Store.{store_of, credential_at_place};
ghost use Rattle.krb_ccache.specs.Changes.{is_refused, put_result, with_last};
ghost use Rattle.krb_ccache.specs.SetConfig.{config_components, config_entry, config_server, entry_of, match_places, set_config_result, HoldsConfig};

use super::Ccache;
use crate::cells::bytes_fit;
use crate::config::query::Query;
use crate::config::setting::Setting;
use crate::config::{FIRST, REALM};
use crate::credential::Cred;
use krb_walk::{Code, Refusal};
use krb_wire::{NoMemory, Principal, copy_name};
use std::alloc::Allocator;

// Returns the components of the server of an entry.
fn server_components<A: Allocator + Copy>(
    alloc: A,
    setting: &Setting<'_>,
) -> Result<Vec<Vec<u8, A>, A>, NoMemory>
    ensures { IfOk result (λ v. items_of v.items ≡ config_components setting.now.key setting.now.principal) }
{
    let mut components = Vec::with_capacity(alloc, 3)?;
    components.push(Vec::from_slice(alloc, FIRST)?)?;
    components.push(Vec::from_slice(alloc, setting.key)?)?;
    if let Some(text) = setting.principal {
        components.push(Vec::from_slice(alloc, text)?)?;
    }
    Ok(components)
}

// Returns the server of an entry.
fn server<A: Allocator + Copy>(alloc: A, setting: &Setting<'_>) -> Result<Principal<A>, NoMemory>
    ensures { IfOk result (λ p. principal_parts p ≡ config_server setting.now.key setting.now.principal) }
{
    let realm = Vec::from_slice(alloc, REALM)?;
    let components = server_components(alloc, setting)?;
    Ok(Principal {
        name_type: 1,
        realm,
        components,
    })
}

impl<A: Allocator> Ccache<A> {
    /// Returns the entry that setting this value adds.
    pub fn setting_entry<B: Allocator + Copy>(
        &self,
        alloc: B,
        setting: &Setting<'_>,
    ) -> Result<Cred<B>, NoMemory>
        ensures { IfOk result (λ entry. entry ≡ entry_of self.now.state.principal setting.now) }
    {
        let client = copy_name(alloc, &self.default_principal())?;
        let server = server(alloc, setting)?;
        let ticket = Vec::from_slice(alloc, setting.value)?;
        Ok(Cred {
            client,
            server,
            enctype: 0,
            key: Vec::new(alloc),
            authtime: 0,
            starttime: 0,
            endtime: 0,
            renew_till: 0,
            is_skey: 0,
            flags: 0,
            addresses: Vec::new(alloc),
            authdata: Vec::new(alloc),
            ticket,
            second_ticket: Vec::new(alloc),
        })
    }

    /// Returns the places of the entries that setting this value removes, in file order. One pass.
    pub fn setting_places<B: Allocator>(
        &self,
        alloc: B,
        setting: &Setting<'_>,
    ) -> Result<Vec<u32, B>, NoMemory>
        ensures { IfOk result (λ places. places.items ≡ match_places self.now.state setting.now) }
    {
        let owner = self.default_principal();
        let query = Query {
            owner: &owner,
            key: setting.key,
            principal: setting.principal,
        };
        let mut places = Vec::new(alloc);
        for (place, credential) in self.credentials() {
            if query.matches(&credential) {
                places.push(place)?;
            }
        }
        Ok(places)
    }

    // Returns why the entry of a setting cannot be added, if it cannot.
    fn check_setting(&self, setting: &Setting<'_>) -> Result<(), Code>
        ensures ok { OnOk result (put_result self.now.state (entry_of self.now.state.principal setting.now)
            ≡ Ok (end_of (store_of self.now.state), with_last self.now.state (entry_of self.now.state.principal setting.now))) }
        ensures version { OnOk result (self.now.state.version ≡ V4) }
        ensures whole { OnOk result ((self.now.state).contents.end ≡ []) }
        ensures err { IfErr result (λ code. put_result self.now.state (entry_of self.now.state.principal setting.now) ≡ Err code) }
    {
        if self.is_read_only() {
            return Err(Code::ReadOnly);
        }
        if self.fault().is_some() {
            return Err(Code::Damaged);
        }
        bytes_fit(&self.image);
        let room = self.layout.limit as usize - self.image.len();
        if !setting.fits_within(&self.default_principal(), room) {
            return Err(Code::Full);
        }
        Ok(())
    }
}

impl<A: Allocator + Copy> Ccache<A> {
    /// Sets the default principal's value for `key` and the text `principal`, or for `key` alone if that is `None`:
    /// appends a new entry, removes every other entry for the same, and returns the place of the new one. Refuses, in
    /// this order, a version 3 cache, a damaged one, and an image that would be longer than the limit. Takes memory
    /// before anything changes.
    pub fn set_config(
        &mut self,
        key: &[u8],
        principal: Option<&[u8]>,
        value: &[u8],
    ) -> Result<u32, Refusal>
        ensures gives { PutGives (set_config_result self.old.state key.now (option_copied principal.entry) value.now)
            self.old.state result self.new.state }
        ensures holds { IfOk result (HoldsConfig self.new.state key.now (option_copied principal.entry) value.now) }
        ensures there { IfOk result (λ place. credential_at_place self.new.state place
            ≡ Some (config_entry self.old.state.principal key.now (option_copied principal.entry) value.now)) }
        ensures memory { is_refused (set_config_result self.old.state key.now (option_copied principal.entry) value.now) ≡ true
            → HadMemory result }
    {
        let setting = Setting {
            key,
            principal,
            value,
        };
        self.check_setting(&setting)?;
        let alloc = *self.image.allocator();
        let entry = self.setting_entry(alloc, &setting)?;
        let others = self.setting_places(alloc, &setting)?;
        let place = self.store(&entry)?;
        self.remove_all(&others);
        Ok(place)
    }
}
