//! Harts that can confine an enclave: QEMU's can, and each requirement on a board's hart is needed.

ghost use Rattle.library_tests.specs.Harts.{LosesControl, NeedsEach, QemuConfines};

/// QEMU's hart can confine an enclave, by the writable bits of its control registers.
pub fn qemu_confines()
    ensures { QemuConfines }
{}

/// A hart that differs from QEMU's in one fixed bit leaves an enclave in supervisor mode, with its host's table of pages, with
/// exceptions or interrupts that go to its host, or with a guest's loads and stores: at each trap of any run of a board after
/// which an enclave has control words under a host that lets in all of its interrupts.
pub fn each_is_needed()
    ensures { NeedsEach }
{}

/// If a host could have control words that its hart cannot hold, it would have others after an enclave.
pub fn wrote_anyhow()
    ensures { LosesControl }
{}
