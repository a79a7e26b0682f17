//! The words of memories: as they are first, as they are read, and what ports write.

ghost use Rattle.std.specs.Prelude.{◌≡◌, ℕ, pos, suc, [], ◌∷◌, ◌+◌, ◌*◌, ◌/◌, ◌<◌, ◌≤◌, Some, length, slice_get, slice_index_or, IfOk, IfSome};
ghost use Rattle.lx_num.specs.Ints.{unsigned, wrapped};
ghost use Rattle.lx_circuit.specs.Circuit.{first_word};
ghost use Rattle.lx_circuit.specs.Memories.{laid_parts, rises_in};
ghost use Rattle.lx_circuit.specs.Values.{count_of};
ghost use Rattle.lx_fhdl.specs.Designs.{circuit_of, memory_of, port_of};
ghost use Rattle.lx_fhdl.specs.Keeping.{IsPort};
ghost use Rattle.lx_fhdl.specs.declared.design.Port.{Port};
ghost use Rattle.lx_trace.specs.Traces.{rises_of};
ghost use Rattle.lx_sim.specs.Blocks.{IsPattern};
ghost use Rattle.lx_sim.specs.Plans.{IsPlan};
ghost use Rattle.lx_sim.specs.Words.{HaveWords, word_at};
ghost use Rattle.lx_sim.specs.Writing.{AreFirstOf, AreFirstWords, ArePatterns, IsPutOf, PutsWord, Writes, within};

use crate::plan::Plan;
use lx_fhdl::{Memory, Port};
use lx_num::{Shape, field, with_field, wrap};
use lx_text::{List, NoMemory};
use std::alloc::Global;

// ---- first words

// The first word of a memory at an address.
fn first_word(memory: &Memory, k: usize) -> i128
    requires { memory.now.width ≤ 64 }
    ensures { result ≡ pos (first_word (memory_of memory.now) k) }
{
    let init = memory.init.as_slice();
    if k < init.len() {
        (init[k] as u128 % (1u128 << memory.width)) as i128
    } else {
        0
    }
}

// The first words of a memory.
fn first_words(alloc: Global, memory: &Memory) -> Result<List<i128>, NoMemory>
    requires { memory.now.width ≤ 64 }
    ensures { IfOk result (λ words. AreFirstOf (memory_of memory.now) memory.now.depth words) }
{
    let mut words = List::new(alloc);
    for k in 0..memory.depth {
        words.push(first_word(memory, k as usize))?;
    }
    Ok(words)
}

/// The first words of all memories.
pub(crate) fn all_words(alloc: Global, plan: &Plan) -> Result<Vec<List<i128>>, NoMemory>
    requires { IsPlan plan.now }
    ensures { IfOk result (λ words. AreFirstWords plan.now.design (length plan.now.design.memories) words.items) }
{
    let mut words = Vec::new(alloc);
    for m in 0..plan.design.memories.len() {
        words.push(first_words(alloc, plan.design.memories.at(m))?)?;
    }
    Ok(words)
}

// ---- reads

// An address: a negative number stands for the first one.
fn count(at: i128) -> u128
    ensures { result ≡ count_of at }
{
    if at < 0 { 0 } else { at as u128 }
}

// An address of one of so many words.
fn address(depth: usize, at: i128) -> Option<usize>
    ensures { result ≡ within depth (count_of at) }
{
    let k = count(at);
    if k < depth as u128 {
        Some(k as usize)
    } else {
        None
    }
}

// A value of a list.
fn item(list: &[i128], k: usize) -> i128
    requires { k < length list.now }
    ensures { result ≡ slice_index_or list.now k (pos 0) }
{
    list[k]
}

// The word at an address; past the end it is 0.
fn word(words: &[i128], at: i128) -> i128
    ensures { result ≡ slice_index_or words.now (count_of at) (pos 0) }
{
    match address(words.len(), at) {
        Some(k) => words[k],
        None => 0,
    }
}

/// The word of a memory at an address, of so many bits.
pub(crate) fn fetched(words: &[List<i128>], memory: usize, width: u8, at: i128) -> i128
    requires there { memory < length words.now }
    requires some { 1 ≤ width }
    requires most { width ≤ 127 }
    ensures { result ≡ wrapped (unsigned width) (word_at words.now memory (count_of at)) }
{
    wrap(
        word(words[memory].as_slice(), at),
        Shape {
            bits: width,
            signed: false,
        },
    )
}

// ---- writes

/// What a port writes to a memory: to the word at the address, of so many bits, the parts of a number whose bits of `we`
/// are set.
#[derive(Clone, Copy)]
pub(crate) struct Put {
    pub(crate) at: i128,
    pub(crate) we: i128,
    pub(crate) from: i128,
    /// The bits of a part, which divide the width.
    pub(crate) part: u8,
    /// At most 64.
    pub(crate) width: u8,
}

// A pattern after its part of a number was written, where its bit is set.
fn with_part(put: Put, i: u8, pattern: i128) -> i128
    requires some { 1 ≤ put.part }
    requires most { put.part * i + put.part ≤ 64 }
    requires pattern { IsPattern pattern }
    ensures pattern { IsPattern result }
    ensures is { (p : ℕ) → pattern ≡ pos (laid_parts put.part put.we put.from p i) → result ≡ pos (laid_parts put.part put.we put.from p (suc i)) }
{
    if field(put.we, i, 1) == 1 {
        let low = put.part * i;
        with_field(pattern, low, put.part, put.from >> low)
    } else {
        pattern
    }
}

// A pattern after the lowest parts of a number were written.
fn with_parts(put: Put, count: u8, pattern: i128) -> i128
    requires some { 1 ≤ put.part }
    requires most { put.part * count ≤ 64 }
    requires pattern { IsPattern pattern }
    ensures pattern { IsPattern result }
    ensures is { (p : ℕ) → pattern ≡ pos p → result ≡ pos (laid_parts put.part put.we put.from p count) }
{
    let mut now = pattern;
    for i in 0..count {
        now = with_part(put, i, now);
    }
    now
}

// A word after it was written.
fn put_over(word: i128, put: Put) -> i128
    requires some { 1 ≤ put.part }
    requires most { put.width ≤ 64 }
    requires pattern { IsPattern word }
    ensures { (p : ℕ) → word ≡ pos p → result ≡ pos (laid_parts put.part put.we put.from p (put.width / put.part)) }
{
    with_parts(put, put.width / put.part, word)
}

// The address that is written, of one of so many words.
fn put_address(depth: usize, put: Put) -> Option<usize>
    ensures { result ≡ within depth (count_of put.at) }
{
    address(depth, put.at)
}

// Writes to a word of a memory.
fn put_word(words: &mut List<i128>, put: Put)
    requires some { 1 ≤ put.part }
    requires most { put.width ≤ 64 }
    requires patterns { ArePatterns words.old }
    ensures { PutsWord put words.old words.new }
{
    if let Some(k) = put_address(words.len(), put) {
        let new = put_over(item(words.as_slice(), k), put);
        words.replace(k, new);
    }
}

// Whether a domain is among those that rise.
pub(crate) fn is_rising(rises: u32, domain: usize) -> bool
    requires { domain < 32 }
    ensures { result ≡ rises_of rises domain }
{
    rises / (1u32 << domain) % 2 == 1
}

// Whether the domain of a port is among those that rise.
fn is_port_rising(rises: u32, port: &Port) -> bool
    requires { IfSome port.now.domain (λ k. k < 32) }
    ensures { result ≡ rises_in (rises_of rises) port.now.domain }
{
    match port.domain {
        Some(domain) => is_rising(rises, domain),
        None => false,
    }
}

// What a port writes, where its domain is among those that rise.
fn put_of(plan: &Plan, port: &Port, rises: u32, vals: &[i128]) -> Option<Put>
    requires plan { IsPlan plan.now }
    requires long { length vals.now ≡ length plan.now.design.signals }
    requires port { IsPort plan.now.design port.now }
    ensures { IsPutOf plan.now.design port.now rises vals.now result }
{
    if !is_port_rising(rises, port) {
        return None;
    }
    match port.dat_w {
        None => None,
        Some(from) => match port.we {
            None => None,
            Some(we) => Some(Put {
                at: item(vals, port.adr.0),
                we: item(vals, we.0),
                from: item(vals, from.0),
                part: port.part,
                width: plan.design.memories.at(port.memory).width,
            }),
        },
    }
}

// Writes what a port writes.
fn write_port(plan: &Plan, place: usize, rises: u32, vals: &[i128], words: &mut [List<i128>])
    requires plan { IsPlan plan.now }
    requires long { length vals.now ≡ length plan.now.design.signals }
    requires there { place < length plan.now.design.ports }
    requires words { HaveWords plan.now.design words.old }
    ensures { (q : Port) → slice_get plan.now.design.ports place ≡ Some q → Writes plan.now.design (port_of q ∷ []) rises vals.now words.old words.new }
{
    let port = plan.design.ports.at(place);
    if let Some(put) = put_of(plan, port, rises, vals) {
        put_word(&mut words[port.memory], put);
    }
}

/// Writes what all ports write where these domains rise, one after another.
pub(crate) fn write_ports(plan: &Plan, rises: u32, vals: &[i128], words: &mut [List<i128>])
    requires plan { IsPlan plan.now }
    requires long { length vals.now ≡ length plan.now.design.signals }
    requires words { HaveWords plan.now.design words.old }
    ensures { Writes plan.now.design (circuit_of plan.now.design).ports rises vals.now words.old words.new }
{
    for place in 0..plan.design.ports.len() {
        write_port(plan, place, rises, vals, words);
    }
}
