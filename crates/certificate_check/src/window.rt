//! Reads the bytes of a source through a window of fixed size.

use text_lines::{Buffer, Source, SourceFault};

/// Size of a window in bytes.
const ROOM: usize = 16384;

/// Whether more bytes may arrive, or the reason why not.
#[derive(Clone, Copy)]
pub(crate) enum Inflow {
    /// The source has not been read to its end.
    Open,
    /// The source has no more bytes.
    AtEnd,
    /// More bytes have arrived than allowed.
    TooLarge,
    /// The source has failed.
    Failed,
}

/// A window over a source: the bytes that have arrived and are not yet used.
#[derive(Drop)]
pub(crate) struct Window {
    buffer: Buffer<ROOM>,
    came: u64,
    most: u64,
    pub(crate) inflow: Inflow,
}

impl Window {
    ghost use Rattle.std.specs.Prelude.{◌≡◌, ◌≢◌, ℕ, ◌+◌, ◌-◌, ◌^◌, ◌<◌, ◌≤◌, ◌↔◌, ⊤, List, [], IsTrue, length, drop};
    ghost use Rattle.certificate_check.specs.declared.window.Inflow.TheVariants.{Open, TooLarge};
    ghost use Rattle.certificate_check.specs.Windows.{counted, fault_of, place, stopped_by, HasEnough, Reads, Stays};

    /// Returns an empty window that accepts at most `most` bytes.
    pub(crate) fn new(most: u64) -> Window
        ensures buffer { result.buffer ≡ [] }
        ensures came { result.came ≡ 0 }
        ensures most { result.most ≡ most }
        ensures inflow { result.inflow ≡ Open }
    {
        Window {
            buffer: Buffer::new(),
            came: 0,
            most,
            inflow: Inflow::Open,
        }
    }

    /// Returns the maximum number of bytes.
    pub(crate) fn most(&self) -> u64
        ensures { result ≡ self.now.most }
    {
        self.most
    }

    /// Returns the bytes in the window.
    #[inline(always)]
    pub(crate) fn held(&self) -> &[u8]
        ensures value { result.now ≡ self.now.buffer }
        ensures most { length self.now.buffer ≤ 16384 }
    {
        self.buffer.as_slice()
    }

    /// Drops the first bytes.
    #[inline(always)]
    pub(crate) fn pass(&mut self, count: usize)
        requires { count ≤ length self.old.buffer }
        ensures buffer { self.new.buffer ≡ drop count self.old.buffer }
        ensures came { self.new.came ≡ self.old.came }
        ensures most { self.new.most ≡ self.old.most }
        ensures inflow { self.new.inflow ≡ self.old.inflow }
    {
        self.buffer.consume(count);
    }

    /// Returns whether the source may have more bytes.
    fn is_open(&self) -> bool
        ensures { IsTrue result ↔ self.now.inflow ≡ Open }
    {
        match self.inflow {
            Inflow::Open => true,
            Inflow::AtEnd => false,
            Inflow::TooLarge => false,
            Inflow::Failed => false,
        }
    }

    /// Returns the reason why not all bytes arrived, if some are missing.
    pub(crate) fn fault(&self) -> Option<SourceFault>
        ensures { result ≡ fault_of self.now.inflow }
    {
        match self.inflow {
            Inflow::Open => None,
            Inflow::AtEnd => None,
            Inflow::TooLarge => Some(SourceFault::TooLarge),
            Inflow::Failed => Some(SourceFault::Read),
        }
    }

    /// Returns the reason why there is no verdict if the entries are not stored. A fault of the source takes
    /// precedence.
    pub(crate) fn stopped_by(&self) -> SourceFault
        ensures { result ≡ stopped_by self.now.inflow }
    {
        match self.inflow {
            Inflow::Open => SourceFault::Memory,
            Inflow::AtEnd => SourceFault::Memory,
            Inflow::TooLarge => SourceFault::TooLarge,
            Inflow::Failed => SourceFault::Read,
        }
    }

    /// Counts arrived bytes.
    fn count(&mut self, count: usize)
        requires { self.old.inflow ≡ Open }
        ensures buffer { self.new.buffer ≡ self.old.buffer }
        ensures came { self.new.came ≡ counted self.old.came count }
        ensures most { self.new.most ≡ self.old.most }
        ensures few { self.new.inflow ≡ Open → self.new.came ≤ self.new.most }
        ensures many { self.new.inflow ≢ Open
            → (self.new.inflow ≡ TooLarge) × (self.new.most < self.new.came) }
    {
        self.came = self.came.saturating_add(count as u64);
        if self.came > self.most {
            self.inflow = Inflow::TooLarge;
        }
    }

    /// Reads some bytes after those in the window, if more may arrive.
    fn read_more<R: Source>(&mut self, source: &mut R)
        requires room { length self.old.buffer < 16384 }
        ensures reads { Reads (place R.remaining R.failures self.old source.old)
            (place R.remaining R.failures self.new source.new) Stays }
        ensures open { self.new.inflow ≡ Open → self.old.inflow ≡ Open }
        ensures more { self.new.inflow ≡ Open
            → length self.old.buffer < length self.new.buffer }
        ensures came { self.new.inflow ≡ Open → counted self.old.came 1 ≤ self.new.came }
        ensures few { self.new.inflow ≡ Open → self.new.came ≤ self.new.most }
    {
        if !self.is_open() {
            return;
        }
        match self.buffer.fill(source, ROOM) {
            Ok(0) => self.inflow = Inflow::AtEnd,
            Ok(n) => self.count(n),
            Err(_) => self.inflow = Inflow::Failed,
        }
    }

    /// Reads until the window has `need` bytes, or no more arrive.
    #[cold]
    #[inline(never)]
    fn fill<R: Source>(&mut self, source: &mut R, need: usize)
        requires { need ≤ 16384 }
        ensures reads { Reads (place R.remaining R.failures self.old source.old)
            (place R.remaining R.failures self.new source.new) Stays }
        ensures enough { HasEnough need (place R.remaining R.failures self.new source.new) }
    {
        for _ in 0..need {
            if need <= self.held().len() {
                return;
            }
            self.read_more(source);
        }
    }

    /// Ensures that the window has `need` bytes, unless no more arrive.
    #[inline(always)]
    pub(crate) fn hold<R: Source>(&mut self, source: &mut R, need: usize)
        requires { need ≤ 16384 }
        ensures reads { Reads (place R.remaining R.failures self.old source.old)
            (place R.remaining R.failures self.new source.new) Stays }
        ensures enough { HasEnough need (place R.remaining R.failures self.new source.new) }
    {
        if need <= self.held().len() {
            return;
        }
        self.fill(source, need);
    }

    /// Returns whether no bytes are left.
    pub(crate) fn is_done<R: Source>(&mut self, source: &mut R) -> bool
        ensures { Reads (place R.remaining R.failures self.old source.old)
            (place R.remaining R.failures self.new source.new)
            (λ left rest. (left ≡ rest) × (IsTrue result ↔ left ≡ [])) }
    {
        self.hold(source, 1);
        self.held().is_empty()
    }

    /// Drops the bytes in the window and all that arrive.
    pub(crate) fn drain<R: Source>(&mut self, source: &mut R)
        requires { self.old.most < 2 ^ 32 }
        ensures reads { Reads (place R.remaining R.failures self.old source.old)
            (place R.remaining R.failures self.new source.new) (λ _ _. ⊤) }
        ensures closed { self.new.inflow ≢ Open }
    {
        for _ in 0..self.most + 1 {
            if !self.is_open() {
                return;
            }
            self.pass(self.held().len());
            self.read_more(source);
        }
    }
}
