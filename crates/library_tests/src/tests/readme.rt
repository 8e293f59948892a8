//! What README and the page of `krb_walk` show, line by line: `tests/pages/documents.py` compares them.

use super::made::{B, HEAD, HOST, b, keytab_of};
use super::{are, is, joined};
use krb_keytab::{Keytab, NewEntry};
use krb_walk::{Event, Session};
use krb_wire::{Limits, Order, parse_name};
use std::alloc::Global;
use std::test::Fail;

const TWO: &[&[u8]] = &[HEAD, HOST, B];

/// Returns the place and the version of the entry that is looked up.
fn look_up(alloc: Global, image: Vec<u8>) -> Result<(u32, u32), Fail> {
    let opened = Keytab::open(image, Order::Little, Limits::usual());
    let keytab = opened.map_err(|refused| refused.why)?;
    let name = parse_name(alloc, b"host/a@R", None)?;
    let (place, entry) = keytab.find(&name, 0, 17)?;
    // entry.principal(), entry.kvno(), entry.enctype(), entry.timestamp(), entry.key()
    Ok((place, entry.kvno()))
}

/// Returns the image after an entry was removed and another was added before the cursor of a walk.
fn edit(alloc: Global, keytab: Keytab<Global>, entry: NewEntry<Global>) -> Result<Vec<u8>, Fail> {
    let mut session = Session::new(alloc, keytab);
    let mut replies = Vec::new(alloc);
    let events = [
        Event::Start,
        Event::Step(0),
        Event::Cut(2),
        Event::Put(entry),
        Event::Step(0),
        Event::Rewrite,
        Event::Step(0),
    ];
    session.run(&events, &mut replies)?;
    // Started { walk: 0, next: 2 }, Gave { walk: 0, place: 2, next: 53, bytes }, Gone(2), Placed(2),
    // Gave { walk: 0, place: 53, next: 98, bytes }: what was put where the walk had passed is not given
    // Rewritten(92), Ended { walk: 0, next: 92 }
    let image = session.into_store().into_image();
    Ok(image)
}

#[test]
fn does_what_it_says(rt: HostRuntime) -> Result<(), Fail> {
    let alloc = rt.alloc();
    is(look_up(alloc, joined(alloc, TWO)?)? == (2, 3), "a look-up")?;
    let image = edit(alloc, keytab_of(alloc, TWO)?, b(alloc)?)?;
    is(are(&image, &[HEAD, B, B]), "an image")
}
