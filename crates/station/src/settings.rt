// The station's window of the settings memory: commands 21h and 22h.
ghost use Rattle.std.specs.Prelude.{◌≡◌, ◌+◌, ◌<◌, length, drop, if◌then◌else◌};
ghost use Rattle.station.specs.Model.{went_well};
ghost use Rattle.station.specs.Replies.{settings_read, settings_write, overwritten};
ghost use Rattle.telegram.specs.Layout.{word};

use crate::status::{Status, alone, limited};
use payload::Payload;

const LONGEST_READ: u8 = 200;

const LONGEST_WRITE: u8 = 64;

// "Read Out EEPROM (21h)".
pub(crate) fn read_settings(window: &[u8], payload: &[u8]) -> Payload
    ensures { result ≡ settings_read window.now payload.now }
{
    let &[low, high, length] = payload else {
        return alone(Status::InvalidParameter);
    };
    if length == 0 {
        return alone(Status::InvalidParameter);
    }
    if length > LONGEST_READ {
        return limited(LONGEST_READ);
    }
    let start = usize::from(u16::from_le_bytes([low, high]));
    let end = start + usize::from(length);
    if end > window.len() {
        return alone(Status::InvalidAddress);
    }
    let mut reply = alone(Status::Ok);
    reply.append(&[low, high, length]).unwrap();
    reply.append(&window[start..end]).unwrap();
    reply
}

// "Program EEPROM (22h)".
pub(crate) fn write_settings(window: &mut [u8], protected: usize, payload: &[u8]) -> Payload
    ensures replied { result ≡ settings_write window.old protected payload.now }
    ensures after { window.new ≡ (if went_well result then overwritten window.old (word payload.now 0) (drop 3 payload.now) else window.old) }
{
    let &[low, high, length, ref bytes @ ..] = payload else {
        return alone(Status::InvalidParameter);
    };
    if length == 0 || bytes.len() != usize::from(length) {
        return alone(Status::InvalidParameter);
    }
    if length > LONGEST_WRITE {
        return limited(LONGEST_WRITE);
    }
    let start = usize::from(u16::from_le_bytes([low, high]));
    let end = start + bytes.len();
    if end > window.len() {
        return alone(Status::InvalidAddress);
    }
    if start < protected {
        return alone(Status::WriteError);
    }
    window[start..end].copy_from_slice(bytes);
    alone(Status::Ok)
}
