//! Whether what stands on the bus of a system is such as descriptions have, or nothing does.

ghost use Rattle.std.specs.Prelude.{◌≡◌, ◌^◌, ◌&&◌, length, nat_le, nat_lt, true};
ghost use Rattle.std.specs.List.{list_all};
ghost use Rattle.std.specs.Str.{bytes_eq};
ghost use Rattle.lx_fhdl.specs.Kept.{is_signal};
ghost use Rattle.lx_description.specs.Keeping as keeping;
ghost use Rattle.lx_description.specs.Kept as kept;
ghost use Rattle.lx_description.specs.Wires as wires;

use crate::signals::{BusPort, Signals, bus_port, given, is_bus_port, left};
use lx_description::{Description, SlaveDecl, SlaveKind};
use lx_fhdl::{Domain, Fix, RegionWish, Signal};
use lx_parts::is_identifier;
use lx_text::List;

/// Whether a list has nothing.
pub(crate) fn is_empty<T: Drop>(list: &List<T>) -> bool
    ensures { result ≡ kept.is_empty list.now }
{
    match list.as_slice() {
        [] => true,
        [_, ..] => false,
    }
}

// ---- the ports of the bus

// Whether the first signals are these ports.
fn are_ports(signals: &[Signal], ports: &[BusPort]) -> bool
    ensures { result ≡ kept.are_bus_ports signals.now ports.now }
{
    let mut rest = signals;
    for port in ports {
        match rest {
            [] => return false,
            [signal, tail @ ..] => {
                if !is_bus_port(signal, port) {
                    return false;
                }
                rest = tail;
            }
        }
    }
    true
}

#[tactic(auto, unfolding(lx_description::specs::Wires::bus_ports))]
fn are_bus_ports(signals: &[Signal]) -> bool
    ensures { result ≡ kept.are_bus_ports signals.now wires.bus_ports }
{
    let ports = [
        bus_port(b"wb_adr", 30),
        bus_port(b"wb_dat_w", 32),
        bus_port(b"wb_sel", 4),
        bus_port(b"wb_cyc", 1),
        bus_port(b"wb_stb", 1),
        bus_port(b"wb_we", 1),
        bus_port(b"wb_dat_r", 32),
        bus_port(b"wb_ack", 1),
        bus_port(b"wb_err", 1),
        bus_port(b"irq", 32),
    ];
    are_ports(signals, &ports)
}

fn is_clocked(domains: &[Domain]) -> bool
    ensures { result ≡ kept.is_clocked domains.now }
{
    match domains {
        [] => false,
        [first, ..] => first.name.is(b"sys") && first.reset.is_some(),
    }
}

// ---- regions and their slaves

fn is_region(region: &RegionWish) -> bool
    ensures { result ≡ kept.is_region region.now }
{
    is_identifier(region.name.as_bytes()) && (region.size >= 1 && region.size <= 4_294_967_296)
}

fn are_regions(regions: &[RegionWish]) -> bool
    ensures { result ≡ list_all kept.is_region regions.now }
{
    for region in regions {
        if !is_region(region) {
            return false;
        }
    }
    true
}

fn is_first_region(region: &RegionWish) -> bool
    ensures { result ≡ kept.is_first_region region.now }
{
    region.name.is(b"csr") && (region.origin.is_some() && (region.size == 65536 && !region.cached))
}

// Words of 32 bits are below 2 to the 32.
fn words_fit(words: &[u32])
    ensures { list_all (λ z. nat_lt z (2 ^ 32)) words.now ≡ true }
{
    let _words = words;
}

// Whether a region is that of a memory with these first words.
fn is_memory_region(region: &RegionWish, words: &[u32]) -> bool
    ensures { result ≡ kept.is_memory_region region.now words.now }
{
    if region.size > 262_144 || !region.cached {
        return false;
    }
    words_fit(words);
    words.len() as u64 <= (region.size + 3) / 4
}

fn answers(signals: &Signals, region: &RegionWish, kind: &SlaveKind) -> bool
    ensures { result ≡ kept.answers signals.now region.now kind.now }
{
    match kind {
        SlaveKind::Ram(words) => is_memory_region(region, words.as_slice()),
        SlaveKind::Rom(words) => is_memory_region(region, words.as_slice()),
        SlaveKind::User(own) => {
            let all = [
                given(30, 0),
                given(32, 0),
                left(32, 0),
                given(4, 0),
                given(1, 0),
                given(1, 0),
                given(1, 0),
                left(1, 0),
                left(1, 0),
            ];
            signals.have_wires(own.as_slice(), &all)
        }
    }
}

fn is_slave(signals: &Signals, region: &RegionWish, slave: &SlaveDecl) -> bool
    ensures { result ≡ (bytes_eq slave.now.name region.now.name && kept.answers signals.now region.now slave.now.kind) }
{
    slave.name.is(region.name.as_bytes()) && answers(signals, region, &slave.kind)
}

// Whether each region has the slave of its name, and there are no others.
fn have_slaves(signals: &Signals, regions: &[RegionWish], slaves: &[SlaveDecl]) -> bool
    ensures { result ≡ kept.have_slaves signals.now regions.now slaves.now }
{
    let mut rest = slaves;
    for region in regions {
        match rest {
            [] => return false,
            [slave, tail @ ..] => {
                if !is_slave(signals, region, slave) {
                    return false;
                }
                rest = tail;
            }
        }
    }
    match rest {
        [] => true,
        [_, ..] => false,
    }
}

fn regions_stand(signals: &Signals, regions: &[RegionWish], slaves: &[SlaveDecl]) -> bool
    ensures { result ≡ kept.regions_stand signals.now regions.now slaves.now }
{
    match regions {
        [] => false,
        [first, rest @ ..] => is_first_region(first) && have_slaves(signals, rest, slaves),
    }
}

// ---- wishes for numbers

fn have_names(fixes: &[Fix]) -> bool
    ensures { result ≡ list_all keeping.has_name fixes.now }
{
    for fix in fixes {
        if !is_identifier(fix.name.as_bytes()) {
            return false;
        }
    }
    true
}

// ---- the whole

// Whether the regions of a system have their slaves, and its wishes names.
fn wishes_stand(signals: &Signals, description: &Description) -> bool
    requires { signals.now ≡ description.now.design }
    ensures { result ≡ ((list_all kept.is_region description.now.wishes.regions && nat_le (length description.now.wishes.regions) 64) && (kept.regions_stand description.now.design description.now.wishes.regions description.now.slaves && (list_all keeping.has_name description.now.wishes.fixes && list_all keeping.has_name description.now.wishes.irqs))) }
{
    let wishes = &description.wishes;
    let regions = wishes.regions.as_slice();
    (are_regions(regions) && regions.len() <= 64)
        && (regions_stand(signals, regions, description.slaves.as_slice())
            && (have_names(wishes.fixes.as_slice()) && have_names(wishes.irqs.as_slice())))
}

fn is_system(description: &Description) -> bool
    requires { list_all is_signal description.now.design.signals ≡ true }
    ensures { result ≡ kept.is_system description.now }
{
    let design = &description.design;
    let signals = Signals::new(design);
    (are_bus_ports(design.signals.as_slice()) && is_clocked(design.domains.as_slice()))
        && wishes_stand(&signals, description)
}

fn is_alone(description: &Description) -> bool
    ensures { result ≡ kept.is_alone description.now }
{
    let wishes = &description.wishes;
    (is_empty(&wishes.regions) && is_empty(&description.slaves))
        && (is_empty(&wishes.fixes) && is_empty(&wishes.irqs))
}

/// Whether a system has the ports of its bus, a reset, and a slave of each region; and what is no system has none of these.
pub(crate) fn top_keeps(description: &Description) -> bool
    requires { list_all is_signal description.now.design.signals ≡ true }
    ensures { result ≡ kept.top_keeps description.now description.now.soc }
{
    if description.soc {
        is_system(description)
    } else {
        is_alone(description)
    }
}
