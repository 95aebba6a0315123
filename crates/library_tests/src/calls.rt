//! Registers, and the calls that they encode.

use sbi_decode::{Call, EXTENSION_ID, NotSupported, Registers, decode};
use std::process::Abort;

const A0: usize = 10;

const A6: usize = 16;

const A7: usize = 17;

/// Returns the registers of a call with these words in a7 and a6, and with 11, 12, 13, 14, 15, 16 in a0 to a5.
fn registers_of(extension: u64, function: u64) -> Registers {
    let mut registers = Registers::new();
    registers.set(A7, extension);
    registers.set(A6, function);
    for i in 0..6usize {
        registers.set(A0 + i, 11 + i as u64);
    }
    registers
}

/// An extension, its function, and the call that they encode.
type Row = (u64, u64, Result<Call, NotSupported>);

/// Asserts the call of each extension and function.
fn all_are(rt: &impl Abort, rows: &[Row]) {
    for (extension, function, wanted) in rows {
        let found = decode(&registers_of(*extension, *function));
        assert!(rt; found == *wanted, "{extension:#x} {function:#x}");
    }
}

const FUNCTIONS: &[Row] = &[
    (
        EXTENSION_ID,
        0,
        Ok(Call::Create {
            base: 11,
            text_pages: 12,
            data_pages: 13,
            shared_base: 14,
            shared_count: 15,
            entry_offset: 16,
        }),
    ),
    (EXTENSION_ID, 1, Ok(Call::Destroy { id: 11 })),
    (EXTENSION_ID, 2, Ok(Call::Run { id: 11 })),
    (EXTENSION_ID, 3, Ok(Call::Stop)),
    (EXTENSION_ID, 4, Ok(Call::Resume { id: 11 })),
    (EXTENSION_ID, 5, Ok(Call::Exit { value: 11 })),
    (EXTENSION_ID, 6, Ok(Call::Measure { id: 11, k: 12 })),
];

#[test]
fn each_function_has_its_arguments(rt: HostRuntime) {
    all_are(&rt, FUNCTIONS);
}

#[test]
fn exit_hands_its_value_to_the_host(rt: HostRuntime) {
    let mut registers = Registers::new();
    registers.set(A7, 0x0845_4E43);
    registers.set(A6, 5);
    registers.set(A0, 9);
    assert!(rt; decode(&registers) == Ok(Call::Exit { value: 9 }));
}

const OTHERS: &[Row] = &[
    (EXTENSION_ID, 7, Err(NotSupported)),
    (EXTENSION_ID, 1 << 32, Err(NotSupported)),
    (0x1_0845_4E43, 5, Err(NotSupported)),
    (0x10, 0, Err(NotSupported)),
    (0, 0, Err(NotSupported)),
];

#[test]
fn other_functions_and_extensions_are_not_supported(rt: HostRuntime) {
    all_are(&rt, OTHERS);
}

#[test]
fn x0_stays_zero_and_the_others_keep_their_values(rt: HostRuntime) {
    let mut registers = Registers::new();
    registers.set_pc(0x8000_0000);
    for n in 0..32usize {
        registers.set(n, 100 + n as u64);
    }
    assert!(rt; registers.get(0) == 0);
    assert!(rt; registers.get(1) == 101);
    assert!(rt; registers.get(31) == 131);
    assert!(rt; registers.pc() == 0x8000_0000);
}
