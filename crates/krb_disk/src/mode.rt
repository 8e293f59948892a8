//! The mode of a file that replaces another.

ghost use Rattle.std.specs.Prelude.{◌≡◌, ◌<◌};
ghost use Rattle.krb_disk.specs.Mode.{IsNewMode, GivesNoMore, owner_rights, group_rights, other_rights};

/// Whether a new file has the owner and the group of the old one.
#[derive(Clone, Copy)]
pub struct Inheritance {
    pub owner: bool,
    pub group: bool,
}

// Returns the mode that gives the owner, the group and the others these rights, three bits each.
fn mode_of(owner: u32, group: u32, others: u32) -> u32
    requires { (owner < 8) × (group < 8) × (others < 8) }
    ensures owner { owner_rights result ≡ owner }
    ensures group { group_rights result ≡ group }
    ensures others { other_rights result ≡ others }
    ensures plain { result < 0o1000 }
{
    owner * 0o100 + group * 0o10 + others
}

// Returns what is kept of a mode. If the owner changes, the old one may be in the group or one of the others; if the group
// does, a member of the old one is one of the others.
fn narrowed_mode(mode: u32, has: Inheritance) -> u32
    ensures { IsNewMode has.owner has.group mode result }
{
    let owner = mode / 0o100 % 0o10;
    let group = mode / 0o10 % 0o10;
    let others = mode % 0o10;
    match (has.owner, has.group) {
        (true, true) => mode % 0o10000,
        (false, true) => mode_of(owner, group & owner, others & owner),
        (true, false) => mode_of(owner, 0, others & group),
        (false, false) => mode_of(owner, 0, others & group & owner),
    }
}

/// Returns the mode of a file that replaces one of this mode.
#[tactic(auto, using(crate::proofs::Within::gives_no_more))]
pub fn new_mode(mode: u32, has: Inheritance) -> u32
    ensures exact { IsNewMode has.owner has.group mode result }
    ensures safe { GivesNoMore has.owner has.group mode result }
{
    narrowed_mode(mode, has)
}
