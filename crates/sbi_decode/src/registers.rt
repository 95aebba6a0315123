//! The program counter and the integer registers of a hart.

ghost use Rattle.std.specs.Prelude.{◌≡◌, ◌≢◌, ℕ, ◌<◌, ◌≤◌};
ghost use Rattle.sbi_decode.specs.Registers.{RegisterFile, x_of, with_x, zeros};

use std::marker::Model;

/// The program counter and the integer registers x0 to x31 of an RV64 hart (RISC-V Unprivileged Architecture, section
/// Programmers' Model for Base Integer ISA). x0 is always zero.
#[derive(Clone, Copy, PartialEq, Eq)]
pub struct Registers {
    pc: u64,
    xs: [u64; 31],
}

impl Model for Registers {
    ghost Value = { RegisterFile };

    ghost view = { λ r. record { pc = r.pc; xs = r.xs } };

    ghost inverse = { λ f. record { pc = f.pc; xs = f.xs } };
}

impl Registers {
    /// Returns registers of zeros, as at boot.
    pub fn new() -> Registers
        ensures { result ≡ zeros }
    {
        Registers { pc: 0, xs: [0; 31] }
    }

    /// Returns the value of xn, for `n` at most 31; x0 reads zero.
    pub fn get(&self, n: usize) -> u64
        requires { n ≤ 31 }
        ensures { result ≡ x_of self.now n }
    {
        if n == 0 {
            return 0;
        }
        self.xs[n - 1]
    }

    /// Sets xn, for `n` at most 31. Setting x0 changes nothing.
    pub fn set(&mut self, n: usize, value: u64)
        requires { n ≤ 31 }
        ensures file { self.new ≡ with_x self.old n value }
        ensures value { 0 < n → x_of self.new n ≡ value }
        ensures others { (m : ℕ) → m ≢ n → x_of self.new m ≡ x_of self.old m }
        ensures zero { n ≡ 0 → self.new ≡ self.old }
        ensures pc { self.new.pc ≡ self.old.pc }
    {
        if n > 0 {
            self.xs[n - 1] = value;
        }
    }

    /// Returns the program counter, a byte address.
    pub fn pc(&self) -> u64
        ensures { result ≡ self.now.pc }
    {
        self.pc
    }

    /// Sets the program counter and nothing else.
    pub fn set_pc(&mut self, value: u64)
        ensures file { self.new ≡ record self.old { pc = value } }
        ensures pc { self.new.pc ≡ value }
        ensures registers { self.new.xs ≡ self.old.xs }
    {
        self.pc = value;
    }
}
