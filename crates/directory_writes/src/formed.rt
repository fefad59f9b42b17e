//! What the parts of a write keep to by their types. Nothing is done here but that it is reported.

ghost use Rattle.std.specs.Prelude.{◌≡◌, false};
ghost use Rattle.csn_cookie.specs.Csn.{IsCsn};
ghost use Rattle.directory_writes.specs.Formed.{IsWellFormed};
ghost use Rattle.entry_tree.specs.Sound.{is_commit};

use csn_cookie::Csn;
use entry_tree::Op;

/// Reports of a CSN that it is in range.
pub(crate) fn is_in_range(csn: Csn)
    ensures { IsCsn csn }
{
    let _micros = csn.micros();
    let _count = csn.count();
    let _sid = csn.sid();
    let _part = csn.part();
}

/// Reports of what a client asks for that its names are names, and what it adds is a list of
/// attributes.
pub(crate) fn is_well_formed(op: &Op)
    ensures { is_commit op.now ≡ false → IsWellFormed op.now }
{
    match op {
        Op::Add(name, attrs) => {
            let _rdns = name.rdns();
            let _list = attrs.list();
        }
        Op::Delete(_) => {}
        Op::Modify(_, _) => {}
        Op::Rename(_, rdn, _, superior) => {
            let _pairs = rdn.list();
            if let Some(above) = superior {
                let _rdns = above.rdns();
            }
        }
        Op::Commit(_, _) => {}
    }
}
