//! The names of a design.

ghost use Rattle.std.specs.Prelude.{◌≡◌, ◌++◌, [], None, Some, false, length, slice_get, IfErr, IfOk, OnOk};
ghost use Rattle.lx_fhdl.specs.Keeping.{Keeps};
ghost use Rattle.lx_emission.specs.Emission.{is_port};
ghost use Rattle.lx_emission.specs.Emits.{PortsFit};
ghost use Rattle.lx_emission.specs.Naming.{NamesFit, clock_name, is_among};
ghost use Rattle.lx_namer.specs.Answers.{Answers, HaveResetNets};
ghost use Rattle.lx_namer.specs.Giving.{AreGiven, IsGivenToo, TellsFault, TellsTaken};
ghost use Rattle.lx_namer.specs.Marks.{AreMarked, ports_and_resets};
ghost use Rattle.lx_namer.specs.Names.{all_given, all_wishes, domain_names, line_of, memory_path, memory_wish, name_or_place, names_of, own_memory_name, own_name, port_fault, reserved, reset_names, signal_path, signal_wish, signal_wishes, taken_first};
ghost use Rattle.lx_namer.specs.Taken.{HaveTheSame, IsTakenToo};

use crate::base::base_name;
use crate::marks::marks;
use crate::nets::Names;
use crate::taken::Taken;
use lx_fhdl::{Design, Domain, SigId};
use lx_text::{Fault, Kind, List, NoMemory, Refusal, Text, Word};
use std::alloc::Global;

// ---- the names that are asked for

// The base name of a path; without one, the mark and the place.
#[tactic(auto, using(lx_vtext::proofs::Numbers::number_decimal))]
fn name_or_place(alloc: Global, mark: &[u8], place: usize, path: &[Word]) -> Result<Word, NoMemory>
    ensures { IfOk result (λ name. name ≡ name_or_place mark.now place path.now) }
{
    if path.is_empty() {
        let mut text = Text::new(alloc);
        text.word(mark)?;
        text.count(place as u128)?;
        return Ok(Word::from_list(text.into_list()));
    }
    base_name(alloc, path)
}

fn signal_path(design: &Design, x: usize) -> &[Word]
    ensures { result.now ≡ signal_path (slice_get design.now.signals x) }
{
    match design.signals.get(x) {
        Some(signal) => signal.path.as_slice(),
        None => &[],
    }
}

fn memory_path(design: &Design, m: usize) -> &[Word]
    ensures { result.now ≡ memory_path (slice_get design.now.memories m) }
{
    match design.memories.get(m) {
        Some(memory) => memory.path.as_slice(),
        None => &[],
    }
}

#[tactic(auto, unfolding(crate::specs::Names::own_name))]
fn own_name(alloc: Global, design: &Design, x: usize) -> Result<Word, NoMemory>
    ensures { IfOk result (λ name. name ≡ own_name design.now x) }
{
    name_or_place(alloc, b"s$", x, signal_path(design, x))
}

#[tactic(auto, unfolding(crate::specs::Names::own_memory_name))]
fn own_memory_name(alloc: Global, design: &Design, m: usize) -> Result<Word, NoMemory>
    ensures { IfOk result (λ name. name ≡ own_memory_name design.now m) }
{
    name_or_place(alloc, b"m$", m, memory_path(design, m))
}

// ---- reserved names

fn add_reset(
    taken: &mut Taken,
    alloc: Global,
    design: &Design,
    reset: Option<SigId>,
) -> Result<(), NoMemory>
    ensures { OnOk result (HaveTheSame taken.new (taken.old ++ reset_names design.now reset)) }
{
    if let Some(reset) = reset {
        let name = own_name(alloc, design, reset.0)?;
        taken.add(name.as_bytes())?;
    }
    Ok(())
}

#[tactic(auto, unfolding(lx_emission::specs::Naming::clock_name))]
fn clock_name(alloc: Global, domain: &Domain) -> Result<Word, NoMemory>
    ensures { IfOk result (λ name. name ≡ clock_name domain.now.name) }
{
    let mut text = Text::new(alloc);
    text.word(domain.name.as_bytes())?;
    text.word(b"_clk")?;
    Ok(Word::from_list(text.into_list()))
}

#[tactic(auto, using(crate::proofs::Ports::domain_taken))]
fn add_domain(
    taken: &mut Taken,
    alloc: Global,
    design: &Design,
    domain: &Domain,
) -> Result<(), NoMemory>
    ensures { OnOk result (HaveTheSame taken.new (taken.old ++ domain_names design.now domain.now)) }
{
    let clock = clock_name(alloc, domain)?;
    taken.add(clock.as_bytes())?;
    add_reset(taken, alloc, design, domain.reset)
}

// The clocks of all domains, and their resets.
fn reserve(alloc: Global, design: &Design) -> Result<Taken, NoMemory>
    ensures { IfOk result (λ taken. HaveTheSame taken (reserved design.now)) }
{
    let mut taken = Taken::new(alloc);
    for domain in design.domains.as_slice() {
        add_domain(&mut taken, alloc, design, domain)?;
    }
    Ok(taken)
}

// ---- ports

fn line_of(design: &Design, x: SigId) -> u32
    ensures { result ≡ line_of (slice_get design.now.signals x.0) }
{
    match design.signals.get(x.0) {
        Some(signal) => signal.line,
        None => 0,
    }
}

// Takes the port's own name, where it is free.
fn check_port(taken: &mut Taken, alloc: Global, design: &Design, x: SigId) -> Result<(), Refusal>
    ensures free { OnOk result (is_among (own_name design.now x.0) taken.old ≡ false) }
    ensures taken { OnOk result (IsTakenToo taken.old taken.new (own_name design.now x.0)) }
    ensures fault { IfErr result (TellsTaken taken.old design.now x) }
{
    let name = own_name(alloc, design, x.0)?;
    if taken.has(name.as_bytes()) {
        return Err(Refusal::Fault(Fault {
            line: line_of(design, x),
            kind: Kind::NameTaken(name),
        }));
    }
    taken.add(name.as_bytes())?;
    Ok(())
}

fn check_ports(taken: &mut Taken, alloc: Global, design: &Design) -> Result<(), Refusal>
    requires { HaveTheSame taken.old (reserved design.now) }
    ensures none { OnOk result (port_fault design.now (reserved design.now) design.now.ios ≡ None) }
    ensures taken { OnOk result (HaveTheSame taken.new (taken_first design.now)) }
    ensures fault { IfErr result (TellsFault (port_fault design.now (reserved design.now) design.now.ios)) }
{
    for x in design.ios.as_slice() {
        check_port(taken, alloc, design, *x)?;
    }
    Ok(())
}

// ---- all names

// The names that are taken, and those that were given, in order.
#[derive(Drop)]
struct Namer {
    taken: Taken,
    names: List<Word>,
}

// Gives the name that is asked for; where it isn't the only one that will do, the first of its kind that is free.
#[tactic(auto, unfolding(crate::specs::Names::given))]
fn give(namer: &mut Namer, alloc: Global, name: Word, only: bool) -> Result<(), NoMemory>
    ensures { OnOk result (IsGivenToo namer.old namer.new (record { name = name; only = only })) }
{
    if only {
        namer.taken.add(name.as_bytes())?;
        namer.names.push(name)?;
        return Ok(());
    }
    let free = namer.taken.free(alloc, name.as_bytes())?;
    namer.names.push(free)?;
    Ok(())
}

#[tactic(auto, unfolding(crate::specs::Names::signal_wish))]
fn name_signal(
    namer: &mut Namer,
    alloc: Global,
    design: &Design,
    x: usize,
    port: bool,
) -> Result<(), NoMemory>
    requires { port ≡ is_port design.now x }
    ensures { OnOk result (IsGivenToo namer.old namer.new (signal_wish design.now x)) }
{
    let name = own_name(alloc, design, x)?;
    let only = signal_path(design, x).is_empty() || port;
    give(namer, alloc, name, only)
}

#[tactic(auto, unfolding(crate::specs::Names::memory_wish))]
fn name_memory(namer: &mut Namer, alloc: Global, design: &Design, m: usize) -> Result<(), NoMemory>
    ensures { OnOk result (IsGivenToo namer.old namer.new (memory_wish design.now m)) }
{
    let name = own_memory_name(alloc, design, m)?;
    let only = memory_path(design, m).is_empty();
    give(namer, alloc, name, only)
}

fn name_signals(
    namer: &mut Namer,
    alloc: Global,
    design: &Design,
    marks: &[bool],
) -> Result<(), NoMemory>
    requires start { AreGiven (taken_first design.now) [] namer.old }
    requires marks { AreMarked (length design.now.signals) (ports_and_resets design.now) marks.now }
    ensures { OnOk result (AreGiven (taken_first design.now) (signal_wishes design.now (length design.now.signals)) namer.new) }
{
    for x in 0..design.signals.len() {
        name_signal(namer, alloc, design, x, marks[x])?;
    }
    Ok(())
}

fn name_memories(namer: &mut Namer, alloc: Global, design: &Design) -> Result<(), NoMemory>
    requires { AreGiven (taken_first design.now) (signal_wishes design.now (length design.now.signals)) namer.old }
    ensures { OnOk result (AreGiven (taken_first design.now) (all_wishes design.now) namer.new) }
{
    for m in 0..design.memories.len() {
        name_memory(namer, alloc, design, m)?;
    }
    Ok(())
}

// The names of all signals and memories, where these are taken first.
fn name_all(alloc: Global, design: &Design, taken: Taken) -> Result<List<Word>, NoMemory>
    requires { HaveTheSame taken (taken_first design.now) }
    ensures { IfOk result (λ names. names ≡ all_given (taken_first design.now) (all_wishes design.now)) }
{
    let mut namer = Namer {
        taken,
        names: List::new(alloc),
    };
    let marks = marks(alloc, design)?;
    name_signals(&mut namer, alloc, design, &marks)?;
    name_memories(&mut namer, alloc, design)?;
    Ok(namer.names)
}

/// The names of a design's nets and memories: the path's words joined by `_`, with a further `_` behind a keyword of
/// Verilog. The clock of each domain and its reset have their names themselves, `<domain>_clk` and `<domain>_rst`, and
/// so have the ports; a port whose name one of these or an earlier port has is `NameTaken`. The other signals follow in
/// order of creation, then the memories; one whose name is taken gets the first of `<name>_2`, `<name>_3` and so on
/// that is free. A signal without a path is `s$<k>`, a memory without one `m$<k>`, by their places.
pub fn names(alloc: Global, design: &Design) -> Result<Names, Refusal>
    requires { Keeps design.now }
    ensures exact { Answers result (names_of design.now) }
    ensures fit { IfOk result (λ n. NamesFit design.now n.words) }
    ensures ports { OnOk result (PortsFit design.now) }
    ensures resets { IfOk result (λ n. HaveResetNets design.now n.words) }
    ensures signals { IfOk result (λ n. n.signals ≡ length design.now.signals) }
{
    let mut taken = reserve(alloc, design)?;
    check_ports(&mut taken, alloc, design)?;
    let words = name_all(alloc, design, taken)?;
    Ok(Names {
        words,
        signals: design.signals.len(),
    })
}
