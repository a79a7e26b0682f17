//! Words and numbers as files tell them.

ghost use Rattle.std.specs.Prelude.{◌≡◌, ◌++◌, OnOk};
ghost use Rattle.lx_export.specs.Rows.{access_word, address_text, lower, window_word};

use lx_description::RegKind;
use lx_text::{NoMemory, Text};

/// `rw`, or `ro` of a status.
pub(crate) fn access_word(kind: RegKind) -> &'static str
    ensures { result.now ≡ access_word kind }
{
    match kind {
        RegKind::Status => "ro",
        RegKind::Storage | RegKind::Raw | RegKind::Pending => "rw",
    }
}

/// `cached` or `io`.
pub(crate) fn window_word(cached: bool) -> &'static str
    ensures { result.now ≡ window_word cached }
{
    if cached { "cached" } else { "io" }
}

/// Adds an address: `0x` and at least eight digits.
pub(crate) fn put_address(out: &mut Text, address: u64) -> Result<(), NoMemory>
    ensures { OnOk result (out.new ≡ out.old ++ address_text address) }
{
    out.hex(address, 8)
}

/// Adds a name in lower case.
pub(crate) fn put_lower(out: &mut Text, name: &[u8]) -> Result<(), NoMemory>
    ensures { OnOk result (out.new ≡ out.old ++ lower name.now) }
{
    for byte in name {
        out.word(&[byte.to_ascii_lowercase()])?;
    }
    Ok(())
}
