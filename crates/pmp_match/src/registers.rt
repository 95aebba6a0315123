//! The PMP registers of a hart.

use crate::smepmp::Security;
use pmp_encoding::Xlen;

/// The register width, the fields of `mseccfg`, and the configuration bytes and address registers of entries 0 to 63,
/// with any values.
#[derive(Clone, Copy, PartialEq, Eq)]
pub struct Registers {
    pub xlen: Xlen,
    pub security: Security,
    pub cfgs: [u8; 64],
    pub addresses: [u64; 64],
}
