//! Leads from a platform to its table, its machine and a run.

ghost use Rattle.std.specs.Prelude.{◌≡◌, ◌≤◌, ◌<◌, None, length, replicate, true};
ghost use Rattle.pmp_encoding.specs.Limits.{limit_number};
ghost use Rattle.hart_sim.specs.Machines.{state_of};
ghost use Rattle.enclave_table.specs.Tables.{IsCurrent};

use arrayvec::ArrayVec;
use context_switch::{Contexts, Hart, switch};
use enclave_table::{
    BootFault, Create, Entering, Leaving, Owner, PageRange, Pages, Platform, PlatformFault,
    Refusal, Table, World,
};
use hart_sim::fakes::{PieceSink, PieceSource};
use hart_sim::{
    Counted, DeviceFault, Event, Machine, NotUnderstood, Reply, RunFault, Sink, Source, parse_line,
    privacy_law, run,
};
use measurement::{Layout, Measure, word};
use permission_map::{Memory, PermissionMap};
use pmp_encoding::{Bank, Entry, Limit, Perm};
use pmp_match::{Access, Cause};
use prefix_tree::Tree;
use sbi_decode::{Call, NotSupported, Registers, decode};
use std::alloc::Global;
use std::io::{Read, Write};

/// Pages of zeros.
#[derive(Drop)]
pub struct Zeros;

impl Pages for Zeros {
    ghost bytes_of = { λ zeros page. replicate 4096 0 };

    fn copy_page(&self, _page: u64, into: &mut [u8; 4096]) {
        *into = [0; 4096];
    }
}

/// A handwritten source that returns one byte at a time and fails on the read after the last.
#[derive(Drop)]
pub struct Dripping<'a> {
    bytes: &'a [u8],
    failures: u64,
}

impl Source for Dripping<'_> {
    ghost remaining = { λ source. None };

    ghost failures = { λ source. source.failures };

    #[tactic(auto, unfolding(text_lines::specs::Streams::GrowsByOne))]
    fn read(&mut self, buf: &mut [u8]) -> Result<usize, DeviceFault> {
        let Some((first, rest)) = self.bytes.split_first() else {
            self.failures = self.failures.saturating_add(1);
            return Err(DeviceFault);
        };
        if buf.is_empty() {
            return Ok(0);
        }
        buf[0] = *first;
        self.bytes = rest;
        Ok(1)
    }
}

/// A handwritten sink that only counts the bytes it accepts, and fails when its room is used up.
#[derive(Drop)]
pub struct Counting {
    room: usize,
    failures: u64,
}

impl Sink for Counting {
    ghost contents = { λ sink. None };

    ghost failures = { λ sink. sink.failures };

    ghost stalls = { λ sink. 0 };

    #[tactic(auto, unfolding(text_lines::specs::Streams::GrowsByOne))]
    fn write(&mut self, buf: &[u8]) -> Result<usize, DeviceFault> {
        let taken = buf.len().min(self.room);
        if taken == 0 && !buf.is_empty() {
            self.failures = self.failures.saturating_add(1);
            return Err(DeviceFault);
        }
        self.room -= taken;
        Ok(taken)
    }
}

/// Runs a trace from one handwritten device to another.
pub fn ran_by_hand(machine: &mut Machine, trace: &[u8], room: usize) -> Result<(), RunFault> {
    let mut source = Dripping {
        bytes: trace,
        failures: 0,
    };
    let mut sink = Counting { room, failures: 0 };
    run(machine, &mut source, &mut sink)
}

/// Runs a trace on devices that fail on request.
pub fn ran_on_pieces(machine: &mut Machine, trace: &[u8]) -> Result<(), RunFault> {
    let mut source = PieceSource::new(trace, 1, Some(3));
    let mut sink = PieceSink::new(1, None);
    run(machine, &mut source, &mut sink)
}

/// Returns the digest of a layout and a page, and one word of it.
pub fn measured(page: &[u8; 4096]) -> ([u8; 32], u64) {
    let layout = Layout {
        text_pages: 1,
        data_pages: 0,
        shared_count: 0,
        entry_offset: 0,
    };
    let mut measure: Measure = Measure::begin(&layout);
    measure.page(page);
    let digest: [u8; 32] = measure.finish();
    (digest, word(&digest, 3))
}

/// Decodes the call in registers.
pub fn called(value: u64) -> Result<Call, NotSupported> {
    let mut registers: Registers = Registers::new();
    registers.set(17, value);
    registers.set_pc(registers.get(31));
    let _: u64 = registers.pc();
    decode(&registers)
}

/// Maps each call to a number made of its arguments.
pub fn number_of_call(call: Call) -> u64 {
    match call {
        Call::Create {
            base,
            text_pages,
            data_pages,
            shared_base,
            shared_count,
            entry_offset,
        } => base ^ text_pages ^ data_pages ^ shared_base ^ shared_count ^ entry_offset,
        Call::Destroy { id } | Call::Run { id } | Call::Resume { id } => id,
        Call::Stop => 3,
        Call::Exit { value } => value,
        Call::Measure { id, k } => id ^ k,
    }
}

/// Switches a hart to the world of enclave 1.
pub fn switched(entries: &[Entry], limit: Limit, bank: Bank) -> (Hart, Registers)
    requires { length entries.now ≤ limit_number limit }
{
    let number: u8 = 0;
    let mut hart: Hart = Hart::new(number, entries, limit);
    let mut contexts: Contexts = Contexts::new();
    hart.registers_mut().set(10, 1);
    switch(&mut hart, &mut contexts, World::Enclave(1), entries);
    contexts.set(number, World::Host, Registers::new());
    let saved: Registers = contexts.get(number, World::Host);
    hart.put_bank(bank);
    (hart, saved)
}

/// Returns a platform with one range of memory, whose first page is the monitor's, and one device.
pub fn platform() -> Result<Platform, PlatformFault> {
    let ram: [(u64, u64); 1] = [(0x8000_0000, 0x80_0000)];
    let devices: [(u64, u64, Perm); 1] = [(0x1000_0000, 0x1000, Perm::ReadWrite)];
    let monitor: (u64, u64) = (0x8000_0000, 0x1000);
    let harts: u8 = 4;
    let entries: u8 = 64;
    Platform::new(monitor, &ram, &devices)?
        .with_harts(harts)?
        .with_entries(entries)
}

/// Uses the number of each platform fault.
pub fn has_number_of_platform(fault: PlatformFault) -> bool
    ensures { result ≡ true }
{
    let number: u8 = match fault {
        PlatformFault::BadRange => 1,
        PlatformFault::Overlap => 2,
        PlatformFault::MonitorNotRam => 3,
        PlatformFault::BadNumber => 4,
        PlatformFault::BadHarts => 5,
        PlatformFault::BadEntries => 6,
    };
    fault.number() == number
}

/// Uses the number of each boot fault.
pub fn has_number_of_boot(fault: BootFault) -> bool
    ensures { result ≡ true }
{
    let number: u8 = match fault {
        BootFault::NeedsMoreEntries(_) => 1,
        BootFault::Memory => 2,
    };
    fault.number() == number
}

/// Boots the table of a platform.
pub fn table(alloc: Global, platform: Platform) -> Result<Table, BootFault> {
    Table::boot(alloc, platform)
}

/// Creates and destroys an enclave in the current world.
pub fn lives<P: Pages>(table: &mut Table, world: World, pages: &P) -> Result<u64, Refusal>
    requires { IsCurrent table.old.table world }
{
    let asked = Create {
        base: 0x8020_0000,
        text_pages: 1,
        data_pages: 0,
        shared_base: 0,
        shared_count: 0,
        entry_offset: 0,
    };
    table.create(world, pages, asked)
}

/// Destroys an enclave in the current world.
pub fn destroyed(table: &mut Table, world: World, id: u64) -> Result<(u64, u64), Refusal>
    requires { IsCurrent table.old.table world }
{
    let zero: PageRange = table.destroy(world, id)?;
    Ok((zero.first, zero.count))
}

/// Enters an enclave.
pub fn entered(table: &mut Table, world: World, id: u64, again: bool) -> Result<(), Refusal>
    requires { IsCurrent table.old.table world }
{
    let entering = if again {
        Entering::Resume
    } else {
        Entering::Run
    };
    table.enter(world, id, entering)
}

/// Leaves an enclave.
pub fn left(table: &mut Table, world: World, ends: bool) -> Result<u64, Refusal>
    requires { IsCurrent table.old.table world }
{
    let leaving = if ends { Leaving::Exit } else { Leaving::Stop };
    table.leave(world, leaving)
}

/// Returns the enclave that owns the first page, if any.
pub fn owner(table: &Table) -> Option<u64> {
    match table.owner(0) {
        Owner::Monitor | Owner::Host => None,
        Owner::Private(id) | Owner::Shared(id) => Some(id),
    }
}

/// Queries an enclave and the host in a table.
pub fn shown(table: &Table, id: u64) -> Result<Option<PermissionMap>, Memory> {
    let _: Option<u64> = table.entry_point(id);
    let _: Result<u64, Refusal> = table.word(id, 0);
    let _: &[Entry] = table.host_entries();
    let _: Option<&[Entry]> = table.enclave_entries(id);
    let _: &Tree = table.host_tree();
    let _: PermissionMap = table.host_view()?;
    table.enclave_view(id)
}

/// Uses the number of each refusal, without its sign.
pub fn has_number_of_refusal(refusal: Refusal) -> bool
    ensures { result ≡ true }
{
    let number: u8 = match refusal {
        Refusal::NotHost | Refusal::NotEnclave => 101,
        Refusal::BadCount => 102,
        Refusal::BadAddress => 103,
        Refusal::BadEntry => 104,
        Refusal::NotRam => 105,
        Refusal::Overlap => 106,
        Refusal::TableFull => 107,
        Refusal::NoEntries => 108,
        Refusal::NoMemory => 109,
        Refusal::BadId => 110,
        Refusal::BadState => 111,
        Refusal::BadWord => 112,
    };
    refusal.number() == number
}

/// Boots a machine and performs one line of a trace.
pub fn stepped(alloc: Global, platform: Platform) -> Result<Reply, BootFault> {
    privacy_law();
    let mut machine: Machine = Machine::boot(alloc, platform)?;
    let hart: u8 = 0;
    Ok(machine.step(hart, Event::Irq))
}

/// Returns an event of each kind except an interrupt.
pub fn events(access: Access) -> [Event; 3] {
    let mut words: ArrayVec<u64, 8> = ArrayVec::new();
    let _ = words.try_push(0x0845_4e43);
    [
        Event::Access(access, 0),
        Event::Reg(31, 0),
        Event::Ecall(words),
    ]
}

/// Replaces the bank of a hart.
pub fn replaced(machine: &mut Machine, hart: u8, bank: Bank)
    requires hart { hart < 4 }
    requires limit { limit_number bank.limit
        ≡ limit_number (state_of machine.old).table.layout.limit }
{
    machine.set_bank(hart, bank);
}

/// Queries a hart of a machine.
pub fn seen(machine: &Machine, hart: u8) -> (World, bool, u8)
    requires { hart < 4 }
{
    let _: &Bank = machine.bank(hart);
    let _: &Registers = machine.registers(hart);
    let _: &Table = machine.table();
    (
        machine.world(hart),
        machine.marked(hart),
        machine.byte(0x8000_0000),
    )
}

/// Maps each reply to a number made of its contents.
pub fn number_of_reply(reply: Reply) -> u64 {
    match reply {
        Reply::Done | Reply::NoMemory => 0,
        Reply::Loaded(value) => value,
        Reply::Fault(cause) => u64::from(cause.number()),
        Reply::Call {
            status,
            value,
            world,
            used,
        } => u64::from(status < 0) ^ value ^ world ^ used,
        Reply::Irq { world, used } => world ^ used,
    }
}

/// Uses the number of each cause.
pub fn has_number_of_cause(cause: Cause) -> bool
    ensures { result ≡ true }
{
    let number: u8 = match cause {
        Cause::FetchMisaligned => 0,
        Cause::FetchFault => 1,
        Cause::LoadMisaligned => 4,
        Cause::LoadFault => 5,
        Cause::StoreMisaligned => 6,
        Cause::StoreFault => 7,
    };
    cause.number() == number
}

/// Runs a trace.
pub fn ran<R: Source, W: Sink>(
    machine: &mut Machine,
    source: &mut R,
    sink: &mut W,
) -> Result<(), RunFault> {
    run(machine, source, sink)
}

/// Runs a trace on a reader and a writer of the standard library.
pub fn ran_on<R: Read, W: Write>(
    machine: &mut Machine,
    from: R,
    to: W,
) -> (Result<(), RunFault>, Counted<R>, Counted<W>) {
    let mut source: Counted<R> = Counted::new(from);
    let mut sink: Counted<W> = Counted::new(to);
    let ended = run(machine, &mut source, &mut sink);
    (ended, source, sink)
}

/// Uses the number of each fault of a run.
pub fn has_number_of_run(fault: RunFault) -> bool
    ensures { result ≡ true }
{
    let number: u8 = match fault {
        RunFault::Line(_) => 1,
        RunFault::TooLong => 2,
        RunFault::Read => 3,
        RunFault::Write => 4,
        RunFault::Memory => 5,
    };
    fault.number() == number
}

/// Parses the event and the hart of a line.
pub fn parsed(line: &[u8], harts: u8) -> Result<Option<(u8, Event)>, NotUnderstood> {
    parse_line(line, harts)
}
