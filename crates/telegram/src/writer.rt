// Telegrams written into a buffer.
ghost use Rattle.std.specs.Prelude.{◌≡◌, ◌+◌, ◌≤◌, ◌++◌, length, drop, MatchResult, OnErr};
ghost use Rattle.telegram.specs.Layout.{covered};
ghost use Rattle.telegram.specs.View.{frame};
ghost use Rattle.telegram.specs.Writing.{number, Refused, Written};

use super::view::Fields;
use checksum::crc;
use refusals::Refusal;
use std::error::Error;
use std::fmt;

pub const SOH: u8 = 0x01;

pub const STX: u8 = 0x02;

pub const ETX: u8 = 0x03;

pub const EOT: u8 = 0x04;

// Why a telegram was not written.
#[derive(Clone, Copy, Debug, PartialEq, Eq)]
pub enum WriteRefusal {
    // The buffer is shorter than the longest telegram, 224 bytes.
    BufferTooShort,
    // The payload has more than 210 bytes.
    PayloadTooLong,
}

impl fmt::Display for WriteRefusal {
    fn fmt<W: fmt::Write>(&self, f: &mut fmt::Formatter<W>) -> fmt::Result {
        match self {
            WriteRefusal::BufferTooShort => write!(f, "the buffer has fewer than 224 bytes"),
            WriteRefusal::PayloadTooLong => write!(f, "the payload has more than 210 bytes"),
        }
    }
}

impl Error for WriteRefusal {}

impl Refusal for WriteRefusal {
    ghost number = { number };

    fn number(&self) -> u8 {
        match self {
            WriteRefusal::BufferTooShort => 32,
            WriteRefusal::PayloadTooLong => 36,
        }
    }
}

// SOH to EOT, of a payload of 210 bytes.
pub const LONGEST_TELEGRAM: usize = 224;

const LONGEST_PAYLOAD: usize = 210;

// The bytes that the checksum covers, SOH to ETX.
#[tactic(auto, using(crate::proofs::Frames::laid))]
fn write_covered(fields: &Fields<'_>, buffer: &mut [u8])
    requires payload { length fields.now.payload.now ≤ 210 }
    requires buffer { 224 ≤ length buffer.old }
    ensures { buffer.new ≡ covered (frame fields.now) ++ drop (11 + length (frame fields.now).payload) buffer.old }
{
    let payload = fields.payload;
    let n = payload.len();
    let [receiver_low, receiver_high] = fields.receiver.0.to_le_bytes();
    let [sender_low, sender_high] = fields.sender.0.to_le_bytes();
    let head = [
        SOH,
        fields.version,
        receiver_low,
        receiver_high,
        sender_low,
        sender_high,
        (2 + n) as u8,
        STX,
        fields.command,
        fields.command_version,
    ];
    buffer[0..10].copy_from_slice(&head);
    buffer[10..10 + n].copy_from_slice(payload);
    buffer[10 + n] = ETX;
}

// Writes a telegram to the front of the buffer and tells its length. A refusal leaves the buffer as it was.
pub fn write(fields: &Fields<'_>, buffer: &mut [u8]) -> Result<usize, WriteRefusal>
    ensures written { MatchResult result (Written (frame fields.now) buffer.old buffer.new) (Refused (frame fields.now) buffer.old) }
    ensures unchanged { OnErr result (buffer.new ≡ buffer.old) }
{
    if buffer.len() < LONGEST_TELEGRAM {
        return Err(WriteRefusal::BufferTooShort);
    }
    let n = fields.payload.len();
    if n > LONGEST_PAYLOAD {
        return Err(WriteRefusal::PayloadTooLong);
    }
    write_covered(fields, buffer);
    let [low, high] = crc(&buffer[0..11 + n]).to_le_bytes();
    buffer[11 + n..14 + n].copy_from_slice(&[low, high, EOT]);
    Ok(14 + n)
}
