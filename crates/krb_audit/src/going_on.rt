//! The tickets by which a cache is judged.

ghost use Rattle.std.specs.Prelude.{◌≡◌};
ghost use Rattle.krb_wire.specs.Names.{have_same_name};
ghost use Rattle.krb_audit.specs.GoingOn.{tgs_of};

use krb_wire::Name;

// The first component of the ticket-granting service's name.
const KRBTGT: &[u8] = b"krbtgt";

/// Returns whether a server is the ticket-granting service of that realm.
pub fn is_tgs<N: Name>(realm: &[u8], server: &N) -> bool
    ensures { result ≡ have_same_name (N.parts server.now) (tgs_of realm.now) }
{
    let mut components = server.components();
    let (Some(first), Some(second), None) = (
        components.next(),
        components.next(),
        components.next(),
    ) else {
        return false;
    };
    server.realm() == realm && first == KRBTGT && second == realm
}
