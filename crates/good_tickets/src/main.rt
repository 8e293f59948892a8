//! Prints the services whose tickets in a credential cache are good at a time: `good_tickets FILE SECONDS`.
#![tactic(auto)]

mod tickets;

use anyhow::bail;
use krb_ccache::Ccache;
use krb_wire::Limits;
use std::io::Write;
use std::{env, fs};
use tickets::good_tickets;

fn main(rt: HostRuntime) -> anyhow::Result<()> {
    let alloc = rt.alloc();
    let words: Vec<String> = env::args(&rt)?.collect(alloc)?;
    let [_, file, seconds] = words.as_slice() else {
        bail!("usage: good_tickets FILE SECONDS");
    };
    let image = fs::read(&rt, file.as_str())?;
    let opened = Ccache::open(image, Limits::usual());
    let cache = opened.map_err(|refused| refused.why)?;
    let lines = good_tickets(alloc, &cache, seconds.parse()?)?;
    rt.stdout().write_all(&lines)?;
    Ok(())
}
