//! Gives a name in a keytab its next key, and removes the keys before its last: `rotate_keys FILE NAME KEY SECONDS`.
#![tactic(auto)]

mod rotation;

use anyhow::{Context, bail};
use krb_disk::DiskFiles;
use krb_files::Files;
use krb_keytab::{Keytab, NewEntry};
use krb_wire::{Limits, Order, parse_name};
use rotation::rotate;
use std::alloc::Global;
use std::env;
use std::io::Print;

fn keytab_of<F: Files>(alloc: Global, files: &mut F, file: &str) -> anyhow::Result<Keytab<Global>> {
    let image = files.load(alloc, file, Limits::usual().image())?;
    let opened = Keytab::open(image, Order::Little, Limits::usual());
    Ok(opened.map_err(|refused| refused.why)?)
}

// The entry with the next key of a name, and the version of its last one.
fn next_key(
    alloc: Global,
    keytab: &Keytab<Global>,
    [name, key, seconds]: [&str; 3],
) -> anyhow::Result<(NewEntry<Global>, u32)> {
    let name = parse_name(alloc, name.as_bytes(), None)?;
    let (_, last) = keytab.find(&name, 0, 0)?;
    let (last, enctype) = (last.kvno(), last.enctype());
    let next = NewEntry {
        principal: name,
        timestamp: seconds.parse()?,
        kvno: last.checked_add(1).context("no version is left")?,
        enctype,
        key: hex::decode(alloc, key)?,
    };
    Ok((next, last))
}

// Gives the name in a file its next key, while nobody else changes the file, and returns what is in it now.
fn rotated<F: Files>(
    alloc: Global,
    files: &mut F,
    file: &str,
    texts: [&str; 3],
) -> anyhow::Result<Keytab<Global>> {
    files.hold(file);
    let mut keytab = keytab_of(alloc, files, file)?;
    let (next, last) = next_key(alloc, &keytab, texts)?;
    rotate(alloc, &mut keytab, &next, last)?;
    files.save(file, keytab.image())?;
    Ok(keytab)
}

fn print_versions(rt: &impl Print, keytab: &Keytab<Global>) -> anyhow::Result<()> {
    for (place, entry) in keytab.entries() {
        println!(rt; "{place}: version {}", entry.kvno())?;
    }
    Ok(())
}

fn main(rt: HostRuntime) -> anyhow::Result<()> {
    let alloc = rt.alloc();
    let words: Vec<String> = env::args(&rt)?.collect(alloc)?;
    let [_, file, name, key, seconds] = words.as_slice() else {
        bail!("usage: rotate_keys FILE NAME KEY SECONDS");
    };
    let mut files = DiskFiles::new(&rt);
    let texts = [name.as_str(), key.as_str(), seconds.as_str()];
    let keytab = rotated(alloc, &mut files, file.as_str(), texts)?;
    print_versions(&rt, &keytab)
}
