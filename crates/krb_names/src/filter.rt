//! The names that pass.

ghost use Rattle.std.specs.Prelude.{◌≡◌, ◌&&◌, IfOk, map, not, if◌then◌else◌};
ghost use Rattle.std.specs.List.{list_any};
ghost use Rattle.krb_wire.specs.Names.{name_text};
ghost use Rattle.krb_wire.specs.Reading.{principal_parts};
ghost use Rattle.krb_names.specs.Asked.{asks_for, asks_for_any, passes, with_plain_realms};
ghost use Rattle.krb_names.specs.Patterns.{fits, has_star};
ghost use Rattle.krb_names.specs.Set.{is_among};

use crate::asked::AskedNames;
use crate::patterns::{fits, has_star};
use crate::set::NameSet;
use krb_wire::{Name, NoMemory, Principal, write_name};
use std::alloc::Allocator;
use std::marker::Model;

/// Passes the names that are asked for.
#[derive(Drop)]
pub struct NameFilter<'t, A: Allocator, B: Allocator> {
    asked: &'t AskedNames<B>,
    texts: NameSet<'t, A>,
    // Scratch space for a name.
    printed: Vec<u8, A>,
}

impl<'t, A: Allocator, B: Allocator> Model for NameFilter<'t, A, B> {
    ghost use Rattle.krb_names.specs.Asked.{AskedParts};
    ghost use Rattle.krb_names.specs.Set.{HaveSameNames};

    ghost Value = { AskedParts };

    ghost view = { λ filter. filter.asked.now };

    ghost invariant = { λ filter. HaveSameNames filter.asked.now.texts filter.texts };
}

// Returns whether a name fits one of the patterns, or one without a star in the realm.
fn fits_one<N: Name, B: Allocator>(
    patterns: &[Principal<B>],
    only_plain_realms: bool,
    name: &N,
) -> bool
    ensures { result ≡ list_any (λ pattern. not (only_plain_realms && has_star pattern.realm) && fits pattern (N.parts name.now))
        (map principal_parts patterns.now) }
{
    for pattern in patterns {
        let is_asked = !(only_plain_realms && has_star(&pattern.realm));
        if is_asked && fits(pattern, name) {
            return true;
        }
    }
    false
}

impl<'t, A: Allocator + Copy, B: Allocator> NameFilter<'t, A, B> {
    /// Returns that of the names that are asked for.
    pub fn of(alloc: A, asked: &'t AskedNames<B>) -> Result<NameFilter<'t, A, B>, NoMemory>
        ensures { IfOk result (λ filter. filter ≡ asked.now) }
    {
        Ok(NameFilter {
            asked,
            texts: NameSet::of(alloc, &asked.texts)?,
            printed: Vec::new(alloc),
        })
    }
}

impl<'t, A: Allocator, B: Allocator> NameFilter<'t, A, B> {
    /// Returns whether any name is asked for.
    pub fn is_any(&self) -> bool
        ensures { result ≡ asks_for_any self.now }
    {
        let asked = self.asked;
        asked.is_any()
    }

    // Returns whether a name prints as one of the texts. Takes a look-up.
    fn has_text<N: Name>(&mut self, name: &N) -> Result<bool, NoMemory>
        ensures has { IfOk result (λ b. b ≡ is_among self.old.texts (name_text (N.parts name.now))) }
        ensures kept { self.new ≡ self.old }
    {
        if self.texts.len() == 0 {
            return Ok(false);
        }
        self.printed.clear();
        write_name(name, &mut self.printed)?;
        Ok(self.texts.contains(&self.printed))
    }

    /// Returns whether a name is asked for by a text or a pattern, or by one without a star in the realm.
    pub fn asks_for<N: Name>(&mut self, name: &N, only_plain_realms: bool) -> Result<bool, NoMemory>
        ensures asks { IfOk result (λ b. b
            ≡ asks_for (if only_plain_realms then with_plain_realms self.old else self.old) (N.parts name.now)) }
        ensures kept { self.new ≡ self.old }
    {
        if self.has_text(name)? {
            return Ok(true);
        }
        let asked = self.asked;
        Ok(fits_one(&asked.patterns, only_plain_realms, name))
    }

    /// Returns whether a name passes.
    pub fn passes<N: Name>(&mut self, name: &N) -> Result<bool, NoMemory>
        ensures passes { IfOk result (λ b. b ≡ passes self.old (N.parts name.now)) }
        ensures kept { self.new ≡ self.old }
    {
        if self.is_any() {
            return Ok(true);
        }
        self.asks_for(name, false)
    }
}
