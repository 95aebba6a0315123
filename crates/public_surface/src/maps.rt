//! Leads from a map to its entries, their bank, its judgements, and their certificate.

ghost use Rattle.std.specs.Prelude.{◌≡◌, ◌≤◌, ◌<◌, length, true};
ghost use Rattle.pmp_encoding.specs.Limits.{limit_number};

use certificate_check::{CheckRefusal, check};
use entry_planner::{Plan, plan};
use permission_map::{MapFault, Memory, PermissionMap, Run, runs_law};
use plan_certificate::{ReadFault, Reader, Tag, write};
use pmp_encoding::{Bank, EncodingFault, Entry, Limit, Perm, Region, decode};
use pmp_match::{Access, Cause, Kind, Mode, judge};
use prefix_tree::{Tree, build};
use std::alloc::Global;

/// Returns the six permissions, by their bits.
pub fn permissions() -> [Option<Perm>; 6] {
    [
        Perm::from_bits(Perm::NoAccess.bits()),
        Perm::from_bits(Perm::Read.bits()),
        Perm::from_bits(Perm::ReadWrite.bits()),
        Perm::from_bits(Perm::Execute.bits()),
        Perm::from_bits(Perm::ReadExecute.bits()),
        Perm::from_bits(Perm::ReadWriteExecute.bits()),
    ]
}

/// Encodes an entry, given its base, size and permission, as a register pair.
pub fn encoded(base: u64, log2: u32, perm: Perm) -> Option<(u8, u64)> {
    let region: Region = Region::new(base, log2)?;
    let entry = Entry { region, perm };
    Some(entry.encode())
}

/// Decodes a pair.
pub fn decoded(cfg: u8, addr: u64) -> Result<Option<Entry>, EncodingFault> {
    decode(cfg, addr)
}

/// Uses the number of each fault of a pair or a CSR.
pub fn has_number_of_encoding(fault: EncodingFault) -> bool
    ensures { result ≡ true }
{
    let number: u8 = match fault {
        EncodingFault::ReservedPerm => 1,
        EncodingFault::Tor => 2,
        EncodingFault::Locked => 3,
        EncodingFault::ReservedBits => 4,
        EncodingFault::AddressBits => 5,
        EncodingFault::NoSuchCsr => 6,
    };
    fault.number() == number
}

/// Builds a bank of entries, queries it, and writes a CSR.
pub fn banked(entries: &[Entry], limit: Limit) -> Result<Bank, EncodingFault>
    requires { length entries.now ≤ limit_number limit }
{
    let mut bank: Bank = Bank::of(entries, limit);
    let _: Option<Entry> = bank.entry(63);
    let words: [u64; 4] = [bank.cfg(14), bank.cfg0(), bank.cfg2(), bank.addr(63)];
    let number: u16 = 0x3a0;
    bank.write_csr(number, words[1])?;
    Ok(bank)
}

/// Returns both limits.
pub fn limits() -> [Limit; 2] {
    [Limit::Sixteen, Limit::SixtyFour]
}

/// Returns accesses of all modes and kinds.
pub fn accesses(addr: u64) -> [Option<Access>; 3] {
    let size: u8 = 4;
    [
        Access::new(Mode::Machine, Kind::Fetch, size, addr),
        Access::new(Mode::Supervisor, Kind::Load, size, addr),
        Access::new(Mode::User, Kind::Store, size, addr),
    ]
}

/// Judges an access by a bank.
pub fn judged(bank: &Bank, access: &Access) -> Result<(), Cause> {
    judge(bank, access)
}

/// Builds a map of one range.
pub fn mapped(
    alloc: Global,
    first: u64,
    count: u64,
    perm: Perm,
) -> Result<PermissionMap, MapFault> {
    runs_law();
    let mut map: PermissionMap = PermissionMap::new(alloc);
    map.set_range(first, count, perm)?;
    Ok(map)
}

/// Queries the first page of a map.
pub fn looked_at(map: &PermissionMap) -> (Perm, Option<Perm>) {
    let log2: u32 = 0;
    (map.get(0), map.uniform(0, log2))
}

/// Copies a map and reads its runs.
pub fn copied(map: &PermissionMap) -> Result<PermissionMap, Memory> {
    let copy: PermissionMap = map.try_clone()?;
    let runs: &[Run] = copy.ranges();
    let _ = runs.first().map(|run| (run.first, run.count, run.perm));
    Ok(copy)
}

/// Uses the number of each fault of a map.
pub fn has_number_of_map(fault: MapFault) -> bool
    ensures { result ≡ true }
{
    let number: u8 = match fault {
        MapFault::PastEnd => 1,
        MapFault::TooManyRanges => 2,
        MapFault::Memory => 3,
    };
    fault.number() == number
}

/// Builds the tree of a map.
pub fn built(alloc: Global, map: &PermissionMap) -> Result<Tree, Memory> {
    build(alloc, map)
}

/// Returns the next version of a tree.
pub fn overwritten(tree: &Tree, first: u64, count: u64, perm: Perm) -> Result<Tree, MapFault> {
    tree.with_range(first, count, perm)
}

/// Plans a tree.
pub fn planned(alloc: Global, tree: &Tree) -> Result<Plan, Memory> {
    let plan: Plan = plan(alloc, tree)?;
    let _: usize = tree.branches();
    Ok(plan)
}

/// Returns the bank of a plan's entries, if a hart with that limit has room for them.
pub fn loaded(plan: &Plan, limit: Limit) -> Option<Bank> {
    let needed: u32 = plan.needed();
    let entries: &[Entry] = plan.entries();
    if needed > limit.number() {
        return None;
    }
    Some(Bank::of(entries, limit))
}

/// Returns the cost of the first split block of a plan if no access is inherited.
pub fn cost(plan: &Plan) -> Option<u32> {
    let branches: usize = plan.branches();
    if branches == 0 {
        return None;
    }
    Some(plan.cost(0, Perm::NoAccess))
}

/// Writes and checks the certificate of a map's plan.
pub fn certified(
    alloc: Global,
    map: &PermissionMap,
    limit: Limit,
) -> Result<Result<u32, CheckRefusal>, Memory> {
    let tree: Tree = build(alloc, map)?;
    let plan: Plan = plan(alloc, &tree)?;
    let bytes: Vec<u8> = write(alloc, &tree, &plan, limit)?;
    Ok(check(map, bytes.as_slice()))
}

/// Reads the header of a certificate.
pub fn read(bytes: &[u8]) -> Result<(u32, Limit), ReadFault> {
    let mut reader: Reader<'_> = Reader::new(bytes);
    let header = reader.header()?;
    Ok((header.count, header.version.limit()))
}

/// Reads the next parts of a certificate after its header.
pub fn read_on(reader: &mut Reader<'_>) -> Result<(Perm, u32), ReadFault> {
    let entry = reader.entry()?;
    let _: (u8, u64) = (entry.cfg(), entry.address());
    let perm: Perm = match reader.tag()? {
        Tag::Leaf => reader.perm()?,
        Tag::Branch => Perm::NoAccess,
    };
    let cost: u32 = reader.costs()?.cost(perm);
    let _: &[u8] = reader.rest();
    Ok((perm, cost))
}

/// Uses the number of each refusal of the checker.
pub fn has_number_of_check(refusal: CheckRefusal) -> bool
    ensures { result ≡ true }
{
    let number: u8 = match refusal {
        CheckRefusal::BadMagic => 1,
        CheckRefusal::BadVersion => 2,
        CheckRefusal::Truncated => 3,
        CheckRefusal::BadTag => 4,
        CheckRefusal::BadPerm => 5,
        CheckRefusal::BadEntry => 6,
        CheckRefusal::SubPageEntry => 7,
        CheckRefusal::TooDeep => 8,
        CheckRefusal::LeafNotUniform => 9,
        CheckRefusal::WrongLeaf => 10,
        CheckRefusal::CostTooHigh => 11,
        CheckRefusal::CostOverflow => 12,
        CheckRefusal::EntriesTooMany => 13,
        CheckRefusal::WrongMeaning => 14,
        CheckRefusal::Trailing => 15,
        CheckRefusal::BadLimit => 16,
    };
    refusal.number() == number
}

/// Uses the number of each fault of the cursor.
pub fn has_number_of_read(fault: ReadFault) -> bool
    ensures { result ≡ true }
{
    let number: u8 = match fault {
        ReadFault::BadMagic => 1,
        ReadFault::BadVersion => 2,
        ReadFault::Truncated => 3,
        ReadFault::BadTag => 4,
        ReadFault::BadPerm => 5,
        ReadFault::BadLimit => 16,
    };
    fault.number() == number
}
