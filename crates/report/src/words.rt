// Names that a person reads, as the manual has them.
use address::{Address, Role};
use std::fmt;

// The manual's clause "Addressing with Class- and Device-ID".
fn class_name(class: u16) -> &'static str {
    match class {
        1 => "road sensor",
        2 => "rain sensor",
        3 => "visibility sensor",
        4 => "active road sensor",
        5 => "non-invasive road sensor",
        6 => "universal measurement transmitter",
        7 => "compact weather station",
        8 => "wind sensor",
        9 => "road sensor (IRS31Pro)",
        10 => "non-invasive mobile road sensor",
        11 => "snow depth sensor",
        12 => "cloud height simulator",
        13 => "protocol converter",
        14 => "reserved class",
        15 => "controller",
        _ => "broadcast class",
    }
}

// The manual's clause "Summary of Commands".
fn command_name(command: u8) -> &'static str {
    match command {
        0x20 => "hardware and software version",
        0x21 => "read out EEPROM",
        0x22 => "program EEPROM",
        0x23 => "online data request",
        0x24 => "offline data request",
        0x25 => "reset / default",
        0x26 => "status request",
        0x27 => "set time / date",
        0x28 => "read out time / date",
        0x29 => "test command",
        0x2a => "monitor",
        0x2b => "protocol change",
        0x2c => "last error message",
        0x2d => "device information",
        0x2e => "reset with delay",
        0x2f => "multi-channel online data request",
        0x30 => "set new device ID",
        0x36 => "UMB-Tunnel",
        0x37 => "firmware update",
        0x38 => "transmission of binary data",
        0x40..=0x7f => "device-specific command",
        0x80..=0x8f => "reserved for development",
        0xf0 => "program EEPROM with PIN",
        _ => "no command of the manual",
    }
}

// An address in words: its role, and which device.
#[derive(Clone, Copy, Debug, PartialEq, Eq)]
pub struct Named(pub Address);

impl fmt::Display for Named {
    fn fmt<W: fmt::Write>(&self, f: &mut fmt::Formatter<W>) -> fmt::Result {
        let class = self.0.class();
        let id = self.0.id();
        let name = class_name(class);
        match self.0.role() {
            Role::OfStation => write!(f, "station: {name}, class {class}, id {id}"),
            Role::OfController => write!(f, "controller, class {class}, id {id}"),
            Role::ToAll => write!(f, "broadcast to all"),
            Role::ToClass => write!(f, "broadcast to class {class}: {name}"),
            Role::OfNobody => {
                let reserve = self.0.reserve();
                write!(f, "no device: class {class}, reserve {reserve}, id {id}")
            }
        }
    }
}

#[derive(Clone, Copy, Debug, PartialEq, Eq)]
pub struct Command(pub u8);

impl fmt::Display for Command {
    fn fmt<W: fmt::Write>(&self, f: &mut fmt::Formatter<W>) -> fmt::Result {
        write!(f, "{}", command_name(self.0))
    }
}
