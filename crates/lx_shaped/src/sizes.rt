//! The bits of targets, from those of their parts.

ghost use Rattle.std.specs.Prelude.{◌≡◌, ◌<◌, length, IsTrue};
ghost use Rattle.lx_circuit.specs.Shapes.{too_wide};
ghost use Rattle.lx_fhdl.specs.Below.{all_targets_below};
ghost use Rattle.lx_shaped.specs.Making.{unless};
ghost use Rattle.lx_shaped.specs.Sizes.{bits_at, most_at, sum_at};

use lx_circuit::WidthFault;
use lx_fhdl::TargetId;

/// The bits of the target at a place.
fn bits_of(bits: &[u8], id: TargetId) -> u8
    requires { id.place < length bits.now }
    ensures { result ≡ bits_at bits.now id.place }
{
    bits[id.place]
}

/// The bits of all parts together.
pub fn sum_of_bits(parts: &[TargetId], bits: &[u8]) -> u128
    requires { IsTrue (all_targets_below (length bits.now) parts.now) }
    ensures { result ≡ sum_at bits.now parts.now }
{
    let mut sum = 0;
    for part in parts {
        sum += bits_of(bits, *part) as u128;
    }
    sum
}

/// The bits of the widest item.
pub fn most_of_bits(items: &[TargetId], bits: &[u8]) -> u8
    requires { IsTrue (all_targets_below (length bits.now) items.now) }
    ensures { result ≡ most_at bits.now items.now }
{
    let mut most = 0;
    for item in items {
        most = bits_of(bits, *item).max(most);
    }
    most
}

/// The bits where they are at most 127, else the fault of a width above that; it shows at most 4,294,967,295.
pub fn narrow(bits: u128) -> Result<u8, WidthFault>
    ensures { result ≡ unless (too_wide bits) bits }
{
    if bits > 127 {
        return Err(WidthFault::TooWide(bits.min(4294967295) as u32));
    }
    Ok(bits as u8)
}
