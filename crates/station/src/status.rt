ghost use Rattle.std.specs.Prelude.{◌≡◌};
ghost use Rattle.station.specs.Codes.{status_code};
ghost use Rattle.station.specs.Replies.{lone, too_long};

use payload::Payload;

// The statuses that a station gives, by the names of the UMB manual's "Status and Error Codes". A fault of a channel gives
// its own code, but that a channel which is switched off is told like these.
#[derive(Clone, Copy)]
pub(crate) enum Status {
    Ok = 0x00,
    UnknownCommand = 0x10,
    InvalidParameter = 0x11,
    InvalidHeader = 0x12,
    InvalidCommandVersion = 0x13,
    InvalidValue = 0x15,
    WriteError = 0x21,
    TooLong = 0x22,
    InvalidAddress = 0x23,
    ChannelOff = 0x36,
}

impl From<Status> for u8 {
    ghost from_gives = { λ status code. code ≡ status_code status };

    fn from(status: Status) -> u8 {
        status as u8
    }
}

// A reply that is a status alone.
pub(crate) fn alone(status: Status) -> Payload
    ensures { result ≡ lone (status_code status) }
{
    Payload::from_slice(&[u8::from(status)]).unwrap()
}

// A reply that what was asked is too long, with the greatest length or number that would be taken.
pub(crate) fn limited(limit: u8) -> Payload
    ensures { result ≡ too_long limit }
{
    Payload::from_slice(&[u8::from(Status::TooLong), limit]).unwrap()
}
