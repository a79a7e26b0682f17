//! Bytes in a room that was reserved, and the calls that are to fail.

ghost use Rattle.std.specs.Prelude.{◌≡◌, ◌+◌, ◌≤◌, ◌++◌, length, nat_le, if◌then◌else◌};
ghost use Rattle.std.specs.Vec.{vec_capacity};
ghost use Rattle.lx_outside.specs.Memory.{taken_by, front_of};

use crate::calls::Fail;

// How many bytes a call takes where it is listed.
pub(crate) fn taken_at(fails: &[Fail], call: u64) -> Option<u64>
    ensures { result ≡ taken_by fails.now call }
{
    for fail in fails {
        if fail.call == call {
            return Some(fail.taken);
        }
    }
    None
}

// The first bytes, as many as are taken.
pub(crate) fn front(bytes: &[u8], taken: Option<u64>) -> &[u8]
    ensures { result.now ≡ front_of taken bytes.now }
{
    match taken {
        Some(taken) => &bytes[..bytes.len().min(taken as usize)],
        None => bytes,
    }
}

// Appends bytes where they fit into the room, and says whether they do.
pub(crate) fn add_bytes(items: &mut Vec<u8>, room: usize, bytes: &[u8]) -> bool
    requires { room ≤ vec_capacity items.old }
    ensures answer { result ≡ nat_le (length items.old.items + length bytes.now) room }
    ensures items { items.new.items ≡ (if result then items.old.items ++ bytes.now else items.old.items) }
    ensures room { room ≤ vec_capacity items.new }
{
    let used = items.len();
    if used > room || bytes.len() > room - used {
        return false;
    }
    items.extend_from_slice(bytes).is_ok()
}
