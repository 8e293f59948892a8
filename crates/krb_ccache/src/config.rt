//! Configuration entries: credentials that hold a value under a key.

pub(crate) mod query;
pub(crate) mod setting;

ghost use Rattle.std.specs.Prelude.{◌≡◌, is_some, option_map};
ghost use Rattle.krb_ccache.specs.Config.{config_name, is_config, config_parts};

use crate::credential::view::CredView;
use krb_wire::Name;

/// The realm of the server of each configuration entry.
pub const REALM: &[u8] = b"X-CACHECONF:";

/// The first component of that server.
pub const FIRST: &[u8] = b"krb5_ccache_conf_data";

/// The name of a configuration entry: a key, and optionally a principal's text.
#[derive(Clone, Copy)]
pub struct ConfigName<'a> {
    pub key: &'a [u8],
    pub principal: Option<&'a [u8]>,
}

// Returns the name in the server of a configuration entry, or `None` for any other server.
fn name_in<N: Name>(server: &N) -> Option<ConfigName<'_>>
    ensures { option_map config_parts result ≡ config_name (N.parts server.now) }
{
    if server.realm() != REALM {
        return None;
    }
    let mut components = server.components();
    let first = components.next()?;
    if first != FIRST {
        return None;
    }
    let key = components.next()?;
    let principal = components.next();
    if components.next().is_some() {
        return None;
    }
    Some(ConfigName { key, principal })
}

/// Returns the name of a configuration entry, or `None` for any other credential.
pub fn config_name<'a>(credential: &'a CredView<'_>) -> Option<ConfigName<'a>>
    ensures { option_map config_parts result ≡ config_name credential.now.server }
{
    name_in(credential.server())
}

/// Returns whether a credential is a configuration entry: its server has the realm `X-CACHECONF:` and two or three
/// components, the first of them `krb5_ccache_conf_data`.
pub fn is_config(credential: &CredView<'_>) -> bool
    ensures { result ≡ is_config credential.now }
{
    config_name(credential).is_some()
}
