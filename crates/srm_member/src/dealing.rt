//! The lines of the input, dealt to the producers.

ghost use Rattle.std.specs.Prelude.{◌≡◌, ◌<◌, ◌∷◌, [], None, map, length, if◌then◌else◌, ◌+◌, ◌==◌, IfOk, IfErr, OnOk, MatchOption};
ghost use Rattle.srm_names.specs.declared.limits.TheConstants.{PENS};
ghost use Rattle.srm_member.specs.Lines.{lines_of, bad_line, dealt_of, AddsTo, IsRefusedFor, IsLineEnd, HasFirstLine};

use bytes::Bytes;
use memchr::memchr;
use srm_names::{LONGEST_BODY, PENS};
use srm_script::ScriptFault;
use std::alloc::{AllocError, Global};

/// Deals the lines of an input to the four producers in turn, the first to the first.
///
/// A line ends at a line feed, which the last line may lack. If nothing follows the last line feed, there is no line behind it. Returns four lists of bodies, in
/// order: line n is in list (n - 1) modulo 4. Fails with [`ScriptFault::BadLine`] for the first line of more than 1,024 bytes, by its number from 1, and with
/// [`ScriptFault::Memory`] if out of memory. Goes through the input once, and copies each line.
pub fn deal(alloc: Global, input: &[u8]) -> Result<Vec<Vec<Bytes>>, ScriptFault>
    ensures ok { IfOk result (λ dealt. (bad_line 1 (lines_of input.now) ≡ None) × (map (λ bodies. bodies.items) dealt.items ≡ dealt_of (lines_of input.now))) }
    ensures err { IfErr result (IsRefusedFor (lines_of input.now)) }
{
    let mut dealt = no_lists(alloc)?;
    let mut left = input;
    let mut number = 1;
    let mut pen = 0;
    while let Some((line, rest)) = next_line(left) {
        if line.len() > usize::from(LONGEST_BODY) {
            return Err(ScriptFault::BadLine(number));
        }
        add_to(alloc, &mut dealt, pen, line)?;
        pen = next_pen(pen);
        number += 1;
        left = rest;
    }
    Ok(dealt)
}

// An empty list for each producer.
fn no_lists(alloc: Global) -> Result<Vec<Vec<Bytes>>, AllocError>
    ensures { IfOk result (λ dealt. map (λ bodies. bodies.items) dealt.items ≡ [] ∷ [] ∷ [] ∷ [] ∷ []) }
{
    let mut dealt = Vec::new(alloc);
    dealt.push(Vec::new(alloc))?;
    dealt.push(Vec::new(alloc))?;
    dealt.push(Vec::new(alloc))?;
    dealt.push(Vec::new(alloc))?;
    Ok(dealt)
}

// The producer whose turn it is after this one.
fn next_pen(pen: usize) -> usize
    requires { pen < PENS }
    ensures { result ≡ (if pen + 1 == PENS then 0 else pen + 1) }
{
    if pen + 1 == usize::from(PENS) {
        0
    } else {
        pen + 1
    }
}

// Adds a body to the list of a producer.
fn add_to(
    alloc: Global,
    dealt: &mut Vec<Vec<Bytes>>,
    pen: usize,
    line: &[u8],
) -> Result<(), AllocError>
    requires { pen < length dealt.old.items }
    ensures { OnOk result (AddsTo pen line.now (map (λ bodies. bodies.items) dealt.old.items) (map (λ bodies. bodies.items) dealt.new.items)) }
{
    let body = Bytes::copy_from_slice(alloc, line)?;
    let bodies = &mut dealt[pen];
    bodies.push(body)?;
    Ok(())
}

// The first line, and what stands behind its line end.
#[tactic(auto, using(crate::proofs::Splitting::cut, crate::proofs::Splitting::whole))]
fn next_line(text: &[u8]) -> Option<(&[u8], &[u8])>
    ensures { MatchOption result (text.now ≡ []) (λ r. HasFirstLine text.now r.0.now r.1.now) }
{
    if text.is_empty() {
        return None;
    }
    let end = line_end(text);
    if end == text.len() {
        return Some((text, &[]));
    }
    Some((&text[..end], &text[end + 1..]))
}

// Where the first line ends.
fn line_end(text: &[u8]) -> usize
    ensures { IsLineEnd text.now result }
{
    memchr(b'\n', text).unwrap_or(text.len())
}
