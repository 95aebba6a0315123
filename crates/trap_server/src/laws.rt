//! Laws of the traps that were served.

ghost use Rattle.std.specs.Prelude.{ℕ, List};
ghost use Rattle.platforms.specs.Platform.{IsLayout, PlatformLayout};
ghost use Rattle.monitor_core.specs.States.{MonitorState, opening_monitor};
ghost use Rattle.trap_server.specs.Boot.{IsFirstAnswer};
ghost use Rattle.trap_server.specs.Firmware.{FirmwareHeadline};
ghost use Rattle.trap_server.specs.Runs.{ServesTraps};
ghost use Rattle.trap_server.specs.Service.{FramesTell};

/// The frame of a trap determines how the trap is served: serving the registers in the frame is serving those that the
/// world had.
pub fn frames_law()
    ensures { FramesTell }
{}

/// After any traps that were served and answered, on every valid platform: the table is sound, and each Running enclave
/// runs on exactly one hart. The list last answered for each existing world means what the world may do, with the
/// fewest entries, and fits a hart. The list last loaded by each hart is such a list of its world. Each creation and
/// destruction was refused for lack of entries iff a resulting view needs more than a hart has, unless an allocation
/// failed. Pages that were requested are memory and not the monitor's, and were read once; pages that were to be zeroed
/// are those of the enclave that was destroyed. Whatever the register sets contain, each world has its own registers
/// after the changes of an answer. An answer contains the enclave's control words if a host enters an enclave, and
/// otherwise none.
pub fn firmware_law()
    ensures { (layout : PlatformLayout) (opened read written : List ℕ) (s : MonitorState)
        (served : ServesTraps (opening_monitor layout) read written s)
        → IsLayout layout → IsFirstAnswer layout opened
        → FirmwareHeadline layout opened read written s served }
{}
