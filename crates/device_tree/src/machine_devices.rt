//! Devices that belong to machine mode.

ghost use Rattle.std.specs.Prelude.{◌≡◌, ◌+◌, ◌≤◌, ◌/◌, ◌&&◌, ◌==◌, drop, leb, length, option_map};
ghost use Rattle.byteorder.specs.Endian.{big_number};
ghost use Rattle.device_tree.specs.MachineDevices.{follows_zero, has_machine_interrupt, has_text, interrupts_machine, is_andes, is_clint, is_controller, is_front, is_machine, is_sender, is_sifive_clint, is_timer};

use crate::bytes::after;
use byteorder::{BigEndian, ByteOrder};

/// Returns whether the bytes begin with the text.
fn is_front(bytes: &[u8], text: &[u8]) -> bool
    ensures { result ≡ is_front text.now bytes.now }
{
    bytes.len() >= text.len() && &bytes[..text.len()] == text
}

/// Returns whether the text occurs directly after a zero.
fn follows_zero(bytes: &[u8], text: &[u8]) -> bool
    ensures { result ≡ follows_zero text.now bytes.now }
{
    let mut i = 0;
    while i < bytes.len() {
        if bytes[i] == 0 && is_front(after(bytes, i + 1), text) {
            return true;
        }
        i += 1;
    }
    false
}

/// Returns whether the text, passed with its final zero, is one of the texts in the bytes.
#[tactic(auto, unfolding(crate::specs::MachineDevices::has_text))]
fn has_text(bytes: &[u8], text: &[u8]) -> bool
    ensures { result ≡ has_text text.now bytes.now }
{
    is_front(bytes, text) || follows_zero(bytes, text)
}

/// Returns whether a device combines the timer and the software interrupts of harts.
fn is_clint(bytes: &[u8]) -> bool
    ensures { result ≡ is_clint bytes.now }
{
    if has_text(bytes, b"riscv,clint0\0".as_slice()) {
        return true;
    }
    has_text(bytes, b"thead,c900-clint\0".as_slice())
}

/// Returns whether a device is SiFive's CLINT.
fn is_sifive_clint(bytes: &[u8]) -> bool
    ensures { result ≡ is_sifive_clint bytes.now }
{
    if has_text(bytes, b"sifive,clint0\0".as_slice()) {
        return true;
    }
    has_text(bytes, b"sifive,clint2\0".as_slice())
}

/// Returns whether a device is a timer of harts.
fn is_timer(bytes: &[u8]) -> bool
    ensures { result ≡ is_timer bytes.now }
{
    if has_text(bytes, b"riscv,aclint-mtimer\0".as_slice()) {
        return true;
    }
    has_text(bytes, b"thead,c900-aclint-mtimer\0".as_slice())
}

/// Returns whether a device sends software interrupts to harts.
fn is_sender(bytes: &[u8]) -> bool
    ensures { result ≡ is_sender bytes.now }
{
    if has_text(bytes, b"riscv,aclint-mswi\0".as_slice()) {
        return true;
    }
    has_text(bytes, b"thead,c900-aclint-mswi\0".as_slice())
}

/// Returns whether a device is Andes' timer of harts, or its source of software interrupts.
fn is_andes(bytes: &[u8]) -> bool
    ensures { result ≡ is_andes bytes.now }
{
    if has_text(bytes, b"andestech,plmt0\0".as_slice()) {
        return true;
    }
    has_text(bytes, b"andestech,plicsw\0".as_slice())
}

/// Returns whether a device is an interrupt controller of the Advanced Interrupt Architecture.
fn is_controller(bytes: &[u8]) -> bool
    ensures { result ≡ is_controller bytes.now }
{
    if has_text(bytes, b"riscv,aplic\0".as_slice()) {
        return true;
    }
    has_text(bytes, b"riscv,imsics\0".as_slice())
}

/// The number of the external interrupt of machine mode.
const MACHINE_INTERRUPT: u32 = 11;

/// Returns whether the first pair of cells names the external interrupt of machine mode.
fn is_machine_pair(bytes: &[u8]) -> bool
    requires { 8 ≤ length bytes.now }
    ensures { result ≡ (leb 8 (length bytes.now) && big_number 4 (drop 4 bytes.now) == 11) }
{
    BigEndian::read_u32(after(bytes, 4)) == MACHINE_INTERRUPT
}

/// Returns whether a pair of cells names the external interrupt of machine mode.
fn has_machine_interrupt(bytes: &[u8]) -> bool
    ensures { result ≡ has_machine_interrupt (length bytes.now / 8) bytes.now }
{
    let mut rest = bytes;
    'pairs: while rest.len() >= 8 {
        if is_machine_pair(rest) {
            return true;
        }
        rest = after(rest, 8);
    }
    false
}

/// Returns whether a device interrupts harts in machine mode, according to `interrupts-extended`.
fn interrupts_machine(interrupts: Option<&[u8]>) -> bool
    ensures { result ≡ interrupts_machine (option_map (λ bytes. bytes.now) interrupts.entry) }
{
    match interrupts {
        Some(bytes) => has_machine_interrupt(bytes),
        None => false,
    }
}

/// Returns whether a device belongs to machine mode: by its `compatible` alone, or as an interrupt controller that interrupts harts
/// in machine mode or delegates to others.
pub(crate) fn is_machine(
    compatible: Option<&[u8]>,
    interrupts: Option<&[u8]>,
    delegates: bool,
) -> bool
    ensures { result ≡ is_machine (option_map (λ bytes. bytes.now) compatible.entry)
        (option_map (λ bytes. bytes.now) interrupts.entry) delegates }
{
    match compatible {
        Some(bytes) => (is_clint(bytes) || is_sifive_clint(bytes))
            || ((is_timer(bytes) || is_sender(bytes))
                || (is_andes(bytes)
                    || (is_controller(bytes) && (delegates || interrupts_machine(interrupts))))),
        None => false,
    }
}
