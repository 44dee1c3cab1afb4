// The status byte of a window, bit by bit, and its interrupt byte.
ghost use Rattle.std.specs.Prelude.{◌≡◌, ◌<◌};
ghost use Rattle.window.specs.Window.{on, status_of, status_byte, interrupt_byte};

use window::Status;

// Whether bit 0 of a byte is 1.
pub(crate) fn on(byte: u8) -> bool
    ensures { result ≡ on byte }
{
    byte % 2 == 1
}

// The status in a byte.
pub(crate) fn read_status(byte: u8) -> Status
    ensures { (result ≡ status_of byte) × (result.unnamed < 16) }
{
    Status {
        busy: on(byte),
        done: on(byte / 2),
        refused: on(byte / 4),
        moved: on(byte / 8),
        unnamed: byte / 16,
    }
}

// The byte of a status.
pub(crate) fn status_byte(status: Status) -> u8
    requires { status.unnamed < 16 }
    ensures { result ≡ status_byte status }
{
    u8::from(status.busy)
        + 2 * u8::from(status.done)
        + 4 * u8::from(status.refused)
        + 8 * u8::from(status.moved)
        + 16 * status.unnamed
}

// The interrupt byte with another bit 0.
pub(crate) fn interrupt_byte(waits: bool, byte: u8) -> u8
    ensures { result ≡ interrupt_byte waits byte }
{
    u8::from(waits) + 2 * (byte / 2)
}
