ghost use Rattle.station.specs.Codes.{Decodes};

// The commands that a station knows, by the names of the UMB manual.
#[derive(Clone, Copy)]
pub(crate) enum Command {
    ReadOutEeprom = 0x21,
    ProgramEeprom = 0x22,
    OnlineDataRequest = 0x23,
    Reset = 0x25,
    StatusRequest = 0x26,
    SetTime = 0x27,
    ReadOutTime = 0x28,
    LastErrorMessage = 0x2c,
    MultiChannelOnlineDataRequest = 0x2f,
}

// No command has this code.
#[derive(Clone, Copy)]
pub(crate) struct UnknownCommand;

impl TryFrom<u8> for Command {
    type Error = UnknownCommand;

    ghost try_from_gives = { Decodes };

    fn try_from(code: u8) -> Result<Command, UnknownCommand> {
        match code {
            0x21 => Ok(Command::ReadOutEeprom),
            0x22 => Ok(Command::ProgramEeprom),
            0x23 => Ok(Command::OnlineDataRequest),
            0x25 => Ok(Command::Reset),
            0x26 => Ok(Command::StatusRequest),
            0x27 => Ok(Command::SetTime),
            0x28 => Ok(Command::ReadOutTime),
            0x2c => Ok(Command::LastErrorMessage),
            0x2f => Ok(Command::MultiChannelOnlineDataRequest),
            _ => Err(UnknownCommand),
        }
    }
}
