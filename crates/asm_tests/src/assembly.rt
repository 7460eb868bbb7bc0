//! Texts and what they assemble to, code and its listing.

use crate::codes::LISTINGS;
use crate::texts::{Answer, TEXTS};
use flk_base::{Bytes, print_hex};
use pal_asm::{AsmError, assemble, disassemble};
use std::alloc::Global;

fn has_digits(alloc: Global, code: &[u8], digits: &str) -> bool {
    let mut line = Bytes::new(alloc);
    print_hex(&mut line, code).is_ok() && line.as_slice() == digits.as_bytes()
}

fn gives_code(alloc: Global, text: &[u8], digits: &str) -> bool {
    if text.len() >= 1 << 32 {
        return false;
    }
    match assemble(alloc, text) {
        Ok(code) => has_digits(alloc, code.as_slice(), digits),
        Err(_) => false,
    }
}

fn fault_of(alloc: Global, text: &[u8]) -> Option<(u32, u8)> {
    if text.len() >= 1 << 32 {
        return None;
    }
    match assemble(alloc, text) {
        Err(AsmError::At(fault)) => Some((fault.line, fault.kind as u8)),
        _ => None,
    }
}

fn is_answer(alloc: Global, text: &str, answer: Answer) -> bool {
    match answer {
        Answer::Code(digits) => gives_code(alloc, text.as_bytes(), digits),
        Answer::At(line, kind) => fault_of(alloc, text.as_bytes()) == Some((line, kind as u8)),
    }
}

#[test]
fn texts(rt: HostRuntime) {
    for (i, (text, answer)) in TEXTS.iter().enumerate() {
        assert!(rt; is_answer(rt.alloc(), text, *answer), "row {i}");
    }
}

fn size_of(alloc: Global, text: &[u8; 15]) -> usize {
    match assemble(alloc, text) {
        Ok(code) => code.as_slice().len(),
        Err(_) => 0,
    }
}

#[test]
fn longest_code(rt: HostRuntime) {
    assert!(rt; size_of(rt.alloc(), b".zero 49119\nnop") == 49_120);
}

fn is_listing(alloc: Global, code: &[u8], listing: &str) -> bool {
    match disassemble(alloc, code) {
        Ok(text) => text.as_slice() == listing.as_bytes(),
        Err(_) => false,
    }
}

#[test]
fn listings(rt: HostRuntime) {
    for (i, (code, listing)) in LISTINGS.iter().enumerate() {
        assert!(rt; is_listing(rt.alloc(), code, listing), "row {i}");
    }
}
