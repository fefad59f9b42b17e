//! Buffers of bytes that were read.
ghost use Rattle.std.specs.Prelude.{◌≡◌, ◌≤◌, drop, vec_len};

/// Keeps what follows the first n bytes.
pub fn keep_rest(kept: &mut Vec<u8>, count: usize)
    requires { count ≤ vec_len kept.old }
    ensures { kept.new.items ≡ drop count kept.old.items }
{
    if count == 0 {
        return;
    }
    let len = kept.len();
    kept.copy_within(count..len, 0);
    kept.truncate(len - count);
}
