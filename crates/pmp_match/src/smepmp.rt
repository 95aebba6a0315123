//! The fields of `mseccfg` and their effect on the configuration bytes of entries.

ghost use Rattle.std.specs.Prelude.{◌≡◌, ◌<◌, ◌^◌};
ghost use Rattle.pmp_encoding.specs.Perms.{bits_of, perm_for};
ghost use Rattle.pmp_match.specs.Smepmp.{lockdown_rule, machine_default, machine_perm, rule_of, user_bits, user_cfg};

use pmp_encoding::Perm;

/// The bits of `mseccfg` that change permissions. RLB, bit 2, only affects which register writes are ignored.
#[derive(Clone, Copy, PartialEq, Eq, Debug)]
pub struct Security {
    /// Machine mode lockdown, MML, bit 0.
    pub lockdown: bool,
    /// Machine mode whitelist policy, MMWP, bit 1.
    pub whitelist: bool,
}

impl Security {
    ghost use Rattle.std.specs.Prelude.{◌≡◌};
    ghost use Rattle.pmp_match.specs.Smepmp.{security_of};

    /// Reads a value of `mseccfg`. Both bits are clear in 0, as on a hart without Smepmp.
    pub fn of(mseccfg: u64) -> Security
        ensures { result ≡ security_of mseccfg }
    {
        Security {
            lockdown: mseccfg % 2 == 1,
            whitelist: mseccfg / 2 % 2 == 1,
        }
    }
}

/// The permissions of machine mode and of supervisor and user mode with MML set, by the bits L, R, W and X of an entry.
static RULES: [(Perm, Perm); 16] = [
    (Perm::NoAccess, Perm::NoAccess),
    (Perm::NoAccess, Perm::Execute),
    (Perm::ReadWrite, Perm::Read),
    (Perm::ReadWrite, Perm::ReadWrite),
    (Perm::NoAccess, Perm::Read),
    (Perm::NoAccess, Perm::ReadExecute),
    (Perm::NoAccess, Perm::ReadWrite),
    (Perm::NoAccess, Perm::ReadWriteExecute),
    (Perm::NoAccess, Perm::NoAccess),
    (Perm::Execute, Perm::NoAccess),
    (Perm::Execute, Perm::Execute),
    (Perm::ReadExecute, Perm::Execute),
    (Perm::Read, Perm::NoAccess),
    (Perm::ReadExecute, Perm::NoAccess),
    (Perm::ReadWrite, Perm::NoAccess),
    (Perm::Read, Perm::Read),
];

/// Returns the index of a configuration byte in `RULES`.
fn rule_of(cfg: u8) -> usize
    ensures value { result ≡ rule_of cfg }
    ensures small { result < 16 }
{
    usize::from(cfg / 128 % 2 * 8 + cfg % 2 * 4 + cfg / 2 % 2 * 2 + cfg / 4 % 2)
}

/// Returns the permissions of machine mode and of supervisor and user mode with MML set.
fn lockdown_rule(cfg: u8) -> (Perm, Perm)
    ensures { result ≡ lockdown_rule cfg }
{
    RULES[rule_of(cfg)]
}

/// Returns the bits R, W and X that an entry gives supervisor and user mode.
fn user_bits(security: Security, cfg: u8) -> u8
    ensures value { result ≡ user_bits security cfg }
    ensures small { result < 8 }
{
    if security.lockdown {
        lockdown_rule(cfg).1.bits()
    } else {
        cfg % 8
    }
}

/// Returns the configuration byte that gives supervisor and user mode the same permission on a hart without Smepmp,
/// with L clear.
pub(crate) fn user_cfg(security: Security, cfg: u8) -> u8
    ensures value { result ≡ user_cfg security cfg }
    ensures small { result < 2 ^ 7 }
{
    cfg / 8 % 16 * 8 + user_bits(security, cfg)
}

/// Returns the permission with these bits R, W and X.
fn perm_for(bits: u8) -> Perm
    ensures { result ≡ perm_for bits }
{
    match bits {
        0 => Perm::NoAccess,
        1 => Perm::Read,
        3 => Perm::ReadWrite,
        4 => Perm::Execute,
        5 => Perm::ReadExecute,
        _ => Perm::ReadWriteExecute,
    }
}

/// Returns the permission of machine mode for accesses that this entry decides. The byte has no reserved value.
pub fn machine_perm(security: Security, cfg: u8) -> Perm
    ensures { result ≡ machine_perm security cfg }
{
    if security.lockdown {
        lockdown_rule(cfg).0
    } else if cfg / 128 % 2 == 1 {
        perm_for(cfg % 8)
    } else {
        Perm::ReadWriteExecute
    }
}

/// Returns the permission of machine mode for addresses that no entry matches.
pub fn machine_default(security: Security) -> Perm
    ensures { result ≡ machine_default security }
{
    if security.whitelist {
        Perm::NoAccess
    } else if security.lockdown {
        Perm::ReadWrite
    } else {
        Perm::ReadWriteExecute
    }
}
