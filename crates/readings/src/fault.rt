ghost use Rattle.std.specs.Prelude.{◌≡◌};
ghost use Rattle.readings.specs.Codes.{Decodes, fault_at, fault_code};

use crate::code::UnknownCode;

// Why a channel has no value, by the names of the UMB manual's "Status and Error Codes", each with
// the byte that names it on the wire.
#[derive(Clone, Copy, Debug, PartialEq, Eq)]
pub enum Fault {
    InvalidChannel = 0x24,
    Busy = 0x28,
    ChannelOff = 0x36,
    ValueOverflow = 0x50,
    ValueUnderflow = 0x51,
    ChannelOverrange = 0x52,
    ChannelUnderrange = 0x53,
    DataError = 0x54,
    MeasUnable = 0x55,
    CalcError = 0x56,
}

impl From<Fault> for u8 {
    ghost from_gives = { λ fault code. code ≡ fault_code fault };

    fn from(fault: Fault) -> u8 {
        fault as u8
    }
}

impl TryFrom<u8> for Fault {
    type Error = UnknownCode;

    ghost try_from_gives = { Decodes fault_at };

    fn try_from(code: u8) -> Result<Fault, UnknownCode> {
        match code {
            0x24 => Ok(Fault::InvalidChannel),
            0x28 => Ok(Fault::Busy),
            0x36 => Ok(Fault::ChannelOff),
            0x50 => Ok(Fault::ValueOverflow),
            0x51 => Ok(Fault::ValueUnderflow),
            0x52 => Ok(Fault::ChannelOverrange),
            0x53 => Ok(Fault::ChannelUnderrange),
            0x54 => Ok(Fault::DataError),
            0x55 => Ok(Fault::MeasUnable),
            0x56 => Ok(Fault::CalcError),
            _ => Err(UnknownCode(code)),
        }
    }
}
