//! A hart: its world, its registers and its bank.

ghost use Rattle.std.specs.Prelude.{◌<◌};
ghost use Rattle.sbi_decode.specs.Runners.{IsWorld, IsWorld-prop};

use pmp_encoding::{Bank, Entry, Limit};
use sbi_decode::{Registers, World};

/// One of up to four harts: its world, and the registers and PMP entries loaded on it.
#[derive(Clone, Copy)]
pub struct Hart {
    number: u8,
    pub(crate) world: World,
    pub(crate) registers: Registers,
    pub(crate) bank: Bank,
    pub ghost numbered: { number < 4 },
    pub ghost inhabited: { IsWorld world } by { IsWorld-prop world },
}

impl Hart {
    ghost use Rattle.std.specs.Prelude.{◌≡◌, ◌<◌, ◌≤◌, length};
    ghost use Rattle.std.specs.Borrow.{sem};
    ghost use Rattle.sbi_decode.specs.Registers.{zeros};
    ghost use Rattle.pmp_encoding.specs.Limits.{limit_number};
    ghost use Rattle.pmp_encoding.specs.Banks.{HasList, IsBankOf};
    ghost use Rattle.sbi_decode.specs.Runners.{IsWorld};
    ghost use Rattle.context_switch.specs.Harts.{number_of, world_of, registers_of, bank_of, LendsRegisters};

    /// Returns the hart with this number as at boot: in the host's world, with zero registers and these entries loaded.
    pub fn new(number: u8, entries: &[Entry], limit: Limit) -> Hart
        requires number { number ≤ 3 }
        requires entries { length entries.now ≤ limit_number limit }
        ensures number { number_of result ≡ number }
        ensures world { world_of result ≡ World.Host }
        ensures registers { registers_of result ≡ zeros }
        ensures list { HasList (bank_of result) entries.now }
        ensures bank { IsBankOf (bank_of result) limit entries.now }
    {
        Hart {
            number,
            world: World::Host,
            registers: Registers::new(),
            bank: Bank::of(entries, limit),
        }
    }

    /// Returns the hart's number, 0 to 3.
    pub fn number(&self) -> u8
        ensures value { result ≡ number_of self.now }
        ensures most { result ≤ 3 }
    {
        self.number
    }

    /// Returns the world that runs on the hart: the host, or the enclave with an id from 1 to 64.
    pub fn world(&self) -> World
        ensures value { result ≡ world_of self.now }
        ensures known { IsWorld result }
    {
        self.world
    }

    /// Returns the registers of the running world.
    pub fn registers(&self) -> &Registers
        ensures { result.now ≡ registers_of self.now }
    {
        &self.registers
    }

    /// Borrows the registers of the running world mutably; the rest of the hart stays the same.
    pub fn registers_mut(&mut self) -> &mut Registers
        ensures value { result.now ≡ registers_of self.old }
        ensures* writes_back { sem 𝓛 (LendsRegisters self.entry result) }
    {
        &mut self.registers
    }

    /// Returns the loaded PMP entries.
    pub fn bank(&self) -> &Bank
        ensures { result.now ≡ bank_of self.now }
    {
        &self.bank
    }

    /// Loads entries, at most as many as the bank can hold, and changes nothing else of the hart.
    pub fn load(&mut self, entries: &[Entry])
        requires { length entries.now ≤ limit_number (bank_of self.old).limit }
        ensures list { HasList (bank_of self.new) entries.now }
        ensures bank { IsBankOf (bank_of self.new) (bank_of self.old).limit entries.now }
        ensures number { number_of self.new ≡ number_of self.old }
        ensures world { world_of self.new ≡ world_of self.old }
        ensures registers { registers_of self.new ≡ registers_of self.old }
    {
        self.bank.load(entries);
    }

    /// Replaces the bank, and changes nothing else of the hart.
    pub fn put_bank(&mut self, bank: Bank)
        ensures bank { bank_of self.new ≡ bank }
        ensures number { number_of self.new ≡ number_of self.old }
        ensures world { world_of self.new ≡ world_of self.old }
        ensures registers { registers_of self.new ≡ registers_of self.old }
    {
        self.bank = bank;
    }
}
