//! Listings of registers with values that no command shows: of entries that are off or locked, and of registers set
//! twice.

use pmp_encoding::Xlen;
use register_audit::listing_of;
use std::process::Abort;

/// The width of a listing, the listing, its configuration bytes and its addresses at some positions, and the first line
/// that is ignored.
type Row<'a> = (
    Xlen,
    &'a [u8],
    &'a [(usize, &'a [u8])],
    &'a [(usize, &'a [u64])],
    Option<u64>,
);

const ROWS: &[Row<'static>] = &[
    // gdb
    (
        Xlen::Rv64,
        b"mstatus        0x1800\t6144\npmpcfg0        0x1f\t31\npmpcfg2        0x8000000000000000\t-9223372036854775808\npmpaddr0       0x801fff\t8396799\nmseccfg        0x0\t0\n",
        &[(0, &[0x1f, 0, 0]), (15, &[0x80])],
        &[(0, &[0x80_1fff, 0])],
        Some(1),
    ),
    // OpenOCD
    (
        Xlen::Rv64,
        b"mstatus (/64): 0x0000000a00000000\npmpcfg0 (/64): 0x0000000000000f1f\npmpaddr0 (/64): 0x0000000000801fff\npmpaddr1: 0x20\npmpaddr2 : 33\npmpaddr3=0x22\npmpaddr4 = 35\n",
        &[(0, &[0x1f, 0x0f, 0])],
        &[(0, &[0x80_1fff, 32, 33, 34, 35, 0])],
        Some(1),
    ),
    // handwritten
    (
        Xlen::Rv64,
        b"# from the boot log\r\npmpcfg14 0x1122334455667788 # the last eight\n\npmpaddr63 7\npmpaddr0 1\npmpaddr0 2\n\tpmpcfg0 255\n2 24 0x10",
        &[
            (0, &[255, 0, 24, 0]),
            (56, &[0x88, 0x77, 0x66, 0x55, 0x44, 0x33, 0x22, 0x11]),
        ],
        &[(0, &[2, 0, 16]), (63, &[7])],
        None,
    ),
    // gdb on RV32
    (
        Xlen::Rv32,
        b"mstatus        0x1800\t6144\nmseccfgh       0x0\t0\npmpcfg0        0x89888f88\t-1987539064\npmpcfg1        0x888d898b\t-2003990133\npmpaddr0       0xffffffff\t-1\npmpaddr1       0xa000000\t167772160\n",
        &[(0, &[0x88, 0x8f, 0x88, 0x89, 0x8b, 0x89, 0x8d, 0x88, 0])],
        &[(0, &[0xffff_ffff, 0xa00_0000])],
        Some(1),
    ),
    // OpenOCD on RV32
    (
        Xlen::Rv32,
        b"pmpcfg0 (/32): 0x00000f1f\npmpcfg2: 0x7\npmpaddr0 (/32): 0x00801fff\npmpaddr1=33\n",
        &[(0, &[0x1f, 0x0f, 0, 0, 0, 0, 0, 0, 7, 0])],
        &[(0, &[0x80_1fff, 33])],
        None,
    ),
];

/// Asserts that the listing is parsed as the row says, with an `mseccfg` of zero.
fn is_read(rt: &impl Abort, row: &Row<'_>) {
    let (xlen, listing, cfgs, addresses, passed) = row;
    let listing = listing_of(*xlen, *listing).expect(rt, "understood");
    let registers = listing.registers;
    assert!(rt; registers.xlen == *xlen);
    for (at, bytes) in *cfgs {
        let set = registers.cfgs.as_slice().get(*at..);
        assert!(rt; set.unwrap_or_default().starts_with(*bytes));
    }
    for (at, words) in *addresses {
        let set = registers.addresses.as_slice().get(*at..);
        assert!(rt; set.unwrap_or_default().starts_with(*words));
    }
    assert!(rt; listing.mseccfg == 0 && listing.passed == *passed);
}

#[test]
fn what_gdb_and_openocd_print_is_read(rt: HostRuntime) {
    for row in ROWS {
        is_read(&rt, row);
    }
}
