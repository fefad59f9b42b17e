//! How a write is reported to all open searches, or to none (RFC 4533, section 3.4).
//!
//! First all is made that takes memory: the messages of the write that was previewed, for each
//! search, the room for them in its queue, or, while pieces of its refresh are left, what changed
//! in its content with them; what the directory keeps after the write, and the room for it there.
//! That may fail, and nothing is seen of it. Then the write is put in place and what was made is
//! moved into the searches, which takes no memory and can't fail. What has to stand before a write
//! does, as a record of it on a disk, can be made between the two.

ghost use Rattle.std.specs.Prelude.{◌≡◌, ◌<◌, ◌≤◌, length, IfOk, OnOk};
ghost use Rattle.csn_cookie.specs.Cookie.{cookie_text};
ghost use Rattle.directory_writes.specs.Directory.{cookie_at, with_write, IsPreview};
ghost use Rattle.directory_writes.specs.Ready.{IsReadyWrite};
ghost use Rattle.sync_provider.specs.Staging.{searches_of, each_pushed, each_staged, each_unstaged};

use crate::NoMemory;
use crate::search_table::SearchTable;
use csn_cookie::Cookie;
use directory_writes::{Directory, Preview, Ready};
use entry_tree::Op;

/// Makes all that takes memory for a write that was previewed. It is `NoMemory` where memory runs
/// out.
pub(crate) fn make_ready(
    directory: &mut Directory,
    searches: &mut SearchTable,
    op: &Op,
    preview: Preview,
) -> Result<Ready, NoMemory>
    requires { IsPreview directory.old.state op.now preview }
    ensures state { directory.new.state ≡ directory.old.state }
    ensures searches { searches_of searches.new ≡ searches_of searches.old }
    ensures ready { IfOk result (IsReadyWrite directory.new.state op.now) }
    ensures preview { IfOk result (λ ready. ready.preview ≡ preview) }
    ensures room { OnOk result (0 < directory.new.room) }
    ensures spare { IfOk result (λ ready. length ready.preview.touched ≤ directory.new.spare) }
    ensures staged { OnOk result (searches.new
        ≡ each_staged preview.touched
        (cookie_text (cookie_at directory.old.state.sid directory.old.state.history preview.csn))
        (each_unstaged searches.old)) }
{
    searches.unstage_each();
    stage_write(searches, directory, &preview)?;
    let ready = directory.ready(op, preview)?;
    directory.make_room(1, ready.preview.touched.list().len())?;
    Ok(ready)
}

/// Puts a write that is ready in place, and what it reports into the searches, each of which may
/// keep n messages or identities. It takes no memory, and can't fail.
pub(crate) fn put_in_place(
    directory: &mut Directory,
    searches: &mut SearchTable,
    limit: u64,
    op: Op,
    ready: Ready,
)
    requires ready { IsReadyWrite directory.old.state op ready }
    requires room { 0 < directory.old.room }
    requires spare { length ready.preview.touched ≤ directory.old.spare }
    ensures state { directory.new.state
        ≡ with_write directory.old.state (record { csn = ready.preview.csn; op = op }) }
    ensures searches { searches_of searches.new ≡ each_pushed limit searches.old }
{
    directory.install(op, ready);
    searches.push_each(limit);
}

/// Makes the messages of the write that was previewed, after those that are staged.
pub(crate) fn stage_write(
    searches: &mut SearchTable,
    directory: &Directory,
    preview: &Preview,
) -> Result<(), NoMemory>
    ensures searches { searches_of searches.new ≡ searches_of searches.old }
    ensures staged { OnOk result (searches.new
        ≡ each_staged preview.now.touched
        (cookie_text
        (cookie_at directory.now.state.sid directory.now.state.history preview.now.csn))
        searches.old) }
{
    let cookie = Cookie {
        csn: preview.csn,
        ..directory.cookie()
    };
    searches.stage_each(preview.touched.list(), cookie)
}
