//! Ports, declarations, initial blocks, assigns and always blocks.

ghost use Rattle.std.specs.Prelude.{◌≡◌, ◌++◌, ◌<◌, List, ℕ, length, map, flat_map, nat_lt, IsTrue, OnOk};
ghost use Rattle.std.specs.List.{list_all};
ghost use Rattle.lx_vtext.specs.Printed.{head_text, net_hi, net_text, value_text, port_text, ports_text, more_ports_text, bits_text, signed_text, direction_text, decl_text, memory_text, set_text, initial_text, assign_text, event_text, always_text};
ghost use Rattle.lx_vtree.specs.NodeLists.{expr_tree, stmt_tree};
ghost use Rattle.lx_vtree.specs.Stmts.{are_stmts_below};
ghost use Rattle.lx_vtree.specs.Modules.{literal_of, net_of, port_of, decl_of, memory_of, set_of, sets_of, assign_of, always_of};

use crate::exprs::put_expr;
use crate::leaves::{literal, number};
use crate::stmts::put_block;
use lx_text::{NoMemory, Text, Word};
use lx_vtree::{Always, Assign, Decl, Initial, Memory, Net, Nodes, Port, WordInit};

// The sign, the range and the name of a net; one bit has no range.
#[tactic(auto, unfolding(lx_vtext::specs::Printed::head_text))]
fn put_head(out: &mut Text, net: &Net) -> Result<(), NoMemory>
    ensures { OnOk result (out.new ≡ out.old ++ head_text net.now.signed (net_hi net.now.bits) net.now.name) }
{
    out.word(sign(net.signed))?;
    put_bits(out, net.bits)?;
    out.word(net.name.as_bytes())
}

fn sign(signed: bool) -> &'static [u8]
    ensures { result.now ≡ signed_text signed }
{
    if signed { b"signed " } else { b"" }
}

fn put_bits(out: &mut Text, bits: u64) -> Result<(), NoMemory>
    ensures { OnOk result (out.new ≡ out.old ++ bits_text (net_hi bits)) }
{
    if bits <= 1 {
        return Ok(());
    }
    out.word(b"[")?;
    number(out, (bits - 1) as u128)?;
    out.word(b":0] ")
}

/// A net: `wire [3:0] a`, or `reg signed [3:0] q = 4'sd1`.
pub(crate) fn put_net(out: &mut Text, net: &Net) -> Result<(), NoMemory>
    ensures { OnOk result (out.new ≡ out.old ++ net_text (net_of net.now)) }
{
    match &net.init {
        None => {
            out.word(b"wire ")?;
            put_head(out, net)?;
        }
        Some(value) => {
            out.word(b"reg ")?;
            put_head(out, net)?;
            out.word(b" = ")?;
            literal(out, value)?;
        }
    }
    Ok(())
}

/// A port.
pub(crate) fn put_port(out: &mut Text, port: &Port) -> Result<(), NoMemory>
    ensures { OnOk result (out.new ≡ out.old ++ port_text (port_of port.now)) }
{
    out.word(direction(port.is_input))?;
    put_net(out, &port.net)
}

fn direction(is_input: bool) -> &'static [u8]
    ensures { result.now ≡ direction_text is_input }
{
    if is_input {
        b"    input "
    } else {
        b"    output "
    }
}

/// The ports, one a line, with a comma between two.
pub(crate) fn put_ports(out: &mut Text, ports: &[Port]) -> Result<(), NoMemory>
    ensures { OnOk result (out.new ≡ out.old ++ ports_text (map port_of ports.now)) }
{
    match ports {
        [] => Ok(()),
        [first, more @ ..] => {
            put_port(out, first)?;
            put_more_ports(out, more)?;
            out.word(b"\n")
        }
    }
}

fn put_more_ports(out: &mut Text, ports: &[Port]) -> Result<(), NoMemory>
    ensures { OnOk result (out.new ≡ out.old ++ more_ports_text (map port_of ports.now)) }
{
    for port in ports {
        out.word(b",\n")?;
        put_port(out, port)?;
    }
    Ok(())
}

/// A memory: `reg [7:0] m [0:255]`.
#[tactic(auto, unfolding(lx_vtext::specs::Printed::memory_text))]
pub(crate) fn put_memory(out: &mut Text, memory: &Memory) -> Result<(), NoMemory>
    ensures { OnOk result (out.new ≡ out.old ++ memory_text (memory_of memory.now)) }
{
    out.word(b"reg [")?;
    number(out, memory.bits.saturating_sub(1) as u128)?;
    out.word(b":0] ")?;
    out.word(memory.name.as_bytes())?;
    out.word(b" [0:")?;
    number(out, memory.depth.saturating_sub(1) as u128)?;
    out.word(b"]")
}

/// A declaration.
pub(crate) fn put_decl(out: &mut Text, decl: &Decl) -> Result<(), NoMemory>
    ensures { OnOk result (out.new ≡ out.old ++ decl_text (decl_of decl.now)) }
{
    match decl {
        Decl::Net(net) => {
            put_net(out, net)?;
            out.word(b";\n")?;
        }
        Decl::Memory(memory) => {
            put_memory(out, memory)?;
            out.word(b";\n")?;
        }
    }
    Ok(())
}

/// The declarations, one a line.
pub(crate) fn put_decls(out: &mut Text, decls: &[Decl]) -> Result<(), NoMemory>
    ensures { OnOk result (out.new ≡ out.old ++ flat_map decl_text (map decl_of decls.now)) }
{
    for decl in decls {
        put_decl(out, decl)?;
    }
    Ok(())
}

// A line of an initial block.
#[tactic(auto, unfolding(lx_vtext::specs::Printed::set_text, lx_vtree::specs::Modules::set_of))]
fn put_word(out: &mut Text, word: &WordInit) -> Result<(), NoMemory>
    ensures { OnOk result (out.new ≡ out.old ++ set_text (set_of word.now)) }
{
    out.word(b"    ")?;
    out.word(word.name.as_bytes())?;
    out.word(b"[")?;
    number(out, word.index as u128)?;
    out.word(b"] = ")?;
    literal(out, &word.value)?;
    out.word(b";\n")
}

fn put_words(out: &mut Text, words: &[WordInit]) -> Result<(), NoMemory>
    ensures { OnOk result (out.new ≡ out.old ++ flat_map set_text (map set_of words.now)) }
{
    for word in words {
        put_word(out, word)?;
    }
    Ok(())
}

/// An initial block.
pub(crate) fn put_initial(out: &mut Text, initial: &Initial) -> Result<(), NoMemory>
    ensures { OnOk result (out.new ≡ out.old ++ initial_text (sets_of initial.now)) }
{
    out.word(b"initial begin\n")?;
    put_words(out, initial.words.as_slice())?;
    out.word(b"end\n")?;
    Ok(())
}

/// The initial blocks.
pub(crate) fn put_inits(out: &mut Text, inits: &[Initial]) -> Result<(), NoMemory>
    ensures { OnOk result (out.new ≡ out.old ++ flat_map initial_text (map sets_of inits.now)) }
{
    for initial in inits {
        put_initial(out, initial)?;
    }
    Ok(())
}

/// An assign.
#[tactic(auto, unfolding(lx_vtext::specs::Printed::assign_text))]
pub(crate) fn put_assign(out: &mut Text, nodes: &Nodes, assign: &Assign) -> Result<(), NoMemory>
    requires { assign.now.value.place < length nodes.now.exprs }
    ensures { OnOk result (out.new ≡ out.old ++ assign_text (assign_of (expr_tree nodes.now) assign.now)) }
{
    out.word(b"assign ")?;
    out.word(assign.name.as_bytes())?;
    out.word(b" = ")?;
    put_expr(out, nodes, assign.value)?;
    out.word(b";\n")
}

/// The assigns, one a line.
pub(crate) fn put_assigns(out: &mut Text, nodes: &Nodes, assigns: &[Assign]) -> Result<(), NoMemory>
    requires { IsTrue (list_all (λ a. nat_lt a.value.place (length nodes.now.exprs)) assigns.now) }
    ensures { OnOk result (out.new ≡ out.old ++ flat_map assign_text (map (assign_of (expr_tree nodes.now)) assigns.now)) }
{
    for assign in assigns {
        put_assign(out, nodes, assign)?;
    }
    Ok(())
}

// What an always block waits for.
fn put_event(out: &mut Text, clock: &Option<Word>) -> Result<(), NoMemory>
    ensures { OnOk result (out.new ≡ out.old ++ event_text clock.now) }
{
    match clock {
        None => {
            out.word(b"*")?;
        }
        Some(name) => {
            out.word(b"posedge ")?;
            out.word(name.as_bytes())?;
        }
    }
    Ok(())
}

/// An always block.
#[tactic(auto, unfolding(lx_vtext::specs::Printed::always_text))]
pub(crate) fn put_always(out: &mut Text, nodes: &Nodes, always: &Always) -> Result<(), NoMemory>
    requires { IsTrue (are_stmts_below always.now.body (length nodes.now.stmts)) }
    ensures { OnOk result (out.new ≡ out.old ++ always_text (always_of (stmt_tree nodes.now) always.now)) }
{
    out.word(b"always @(")?;
    put_event(out, &always.clock)?;
    out.word(b") begin\n")?;
    put_block(out, nodes, 1, always.body.as_slice(), nodes.stmt_count())?;
    out.word(b"end\n")
}

/// The always blocks.
pub(crate) fn put_always_blocks(
    out: &mut Text,
    nodes: &Nodes,
    always: &[Always],
) -> Result<(), NoMemory>
    requires { IsTrue (list_all (λ a. are_stmts_below a.body (length nodes.now.stmts)) always.now) }
    ensures { OnOk result (out.new ≡ out.old ++ flat_map always_text (map (always_of (stmt_tree nodes.now)) always.now)) }
{
    for block in always {
        put_always(out, nodes, block)?;
    }
    Ok(())
}
