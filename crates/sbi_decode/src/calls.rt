//! The calls of the monitor.

/// The SBI extension id of the monitor, in the experimental space 0x08000000 to 0x08FFFFFF (SBI, section Binary
/// Encoding). Its lower bytes are the letters "ENC".
pub const EXTENSION_ID: u64 = 0x0845_4E43;

/// A call of the monitor with its arguments. The numbers are the unchecked 64-bit words of the registers; the monitor
/// checks them.
#[derive(Clone, Copy, PartialEq, Eq)]
pub enum Call {
    /// Function 0: creates an enclave. Both bases are byte addresses, the counts are pages, and the entry offset is in
    /// bytes from the base.
    Create {
        base: u64,
        text_pages: u64,
        data_pages: u64,
        shared_base: u64,
        shared_count: u64,
        entry_offset: u64,
    },
    /// Function 1: returns an enclave's pages to the host.
    Destroy {
        id: u64,
    },
    /// Function 2: enters a fresh enclave.
    Run {
        id: u64,
    },
    /// Function 3: the enclave stops itself.
    Stop,
    /// Function 4: enters a stopped enclave again.
    Resume {
        id: u64,
    },
    /// Function 5: the enclave exits with a value for the host.
    Exit {
        value: u64,
    },
    /// Function 6: returns the `k`-th word of an enclave's digest.
    Measure {
        id: u64,
        k: u64,
    },
}

/// The registers name no call of the monitor: the extension id or the function id differs.
#[derive(Clone, Copy, Debug, PartialEq, Eq)]
pub struct NotSupported;
