// The telegram of a burst, or what is wrong with the burst.
ghost use Rattle.std.specs.Prelude.{◌≡◌, ◌<◌, length, OnOk, OnErr, IfOk, IfErr, MatchOption, MatchResult};
ghost use Rattle.telegram.specs.Layout.{at, len, Stands, NoneStands, NoneBetween};
ghost use Rattle.burst.specs.Reading.{Failed, FirstSoh, HasNoSoh, IsShort, Unread};
ghost use Rattle.burst.specs.Showing.{ShowsFirst, ShowsFirstFrom};
ghost use Rattle.burst.specs.declared.fault.ReadFault.TheVariants.{TooLong};

use super::fault::{LineFault, ReadFault};
use checksum::crc;
use telegram::{EOT, ETX, SOH, STX, Telegram};

const LONGEST_BURST: usize = 512;

// The bytes of a burst that is not too long.
#[derive(Clone, Copy)]
struct Burst<'a> {
    bytes: &'a [u8],
    ghost short: { IsShort bytes.now },
}

impl<'a> Burst<'a> {
    fn new(bytes: &'a [u8]) -> Result<Burst<'a>, ReadFault>
        ensures same { IfOk result (λ burst. burst.bytes.now ≡ bytes.now) }
        ensures long { OnErr result (512 < length bytes.now) }
        ensures fault { IfErr result (λ e. e ≡ TooLong) }
    {
        if bytes.len() > LONGEST_BURST {
            return Err(ReadFault::TooLong);
        }
        Ok(Burst { bytes })
    }

    // The tests of the line at an SOH, the cheap ones first: the len of the telegram that stands there, or the first
    // test that fails.
    fn check_at(&self, p: usize) -> Result<u8, LineFault>
        requires inside { p < length self.now.bytes.now }
        requires soh { at self.now.bytes.now p ≡ 0x01 }
        ensures stands { MatchResult result (λ _. Stands self.now.bytes.now p) (Failed self.now.bytes.now p) }
        ensures len { IfOk result (λ n. n ≡ len self.now.bytes.now p) }
    {
        let burst = self.bytes;
        let end = burst.len();
        if end < p + 7 {
            return Err(LineFault::EndsBeforeLen { end });
        }
        let len = burst[p + 6];
        if len < 2 || len > 212 {
            return Err(LineFault::LenOutOfRange { position: p + 6 });
        }
        let n = usize::from(len);
        if end < p + (12 + n) {
            return Err(LineFault::EndsTooEarly { end });
        }
        if burst[p + 7] != STX {
            return Err(LineFault::WrongStx { position: p + 7 });
        }
        let etx = p + (8 + n);
        if burst[etx] != ETX {
            return Err(LineFault::WrongEtx { position: etx });
        }
        let eot = p + (11 + n);
        if burst[eot] != EOT {
            return Err(LineFault::WrongEot { position: eot });
        }
        let sum = p + (9 + n);
        if u16::from_le_bytes([burst[sum], burst[sum + 1]]) != crc(&burst[p..sum]) {
            return Err(LineFault::WrongChecksum { position: sum });
        }
        Ok(len)
    }

    // The first telegram that begins at `start` or later.
    fn search_from(&self, start: usize) -> Option<Telegram<'a>>
        ensures { MatchOption result (NoneBetween self.now.bytes.now start (length self.now.bytes.now)) (ShowsFirstFrom self.now.bytes.now start) }
    {
        for p in start..self.bytes.len() {
            if self.bytes[p] == SOH {
                if let Ok(len) = self.check_at(p) {
                    return Some(Telegram::new(self.bytes, p as u16, len));
                }
            }
        }
        None
    }

    fn first_soh(&self) -> Option<usize>
        ensures { MatchOption result (HasNoSoh self.now.bytes.now) (λ p. (p < length self.now.bytes.now) × FirstSoh self.now.bytes.now p) }
    {
        self.bytes.iter().position(|byte| *byte == SOH)
    }

    // The telegram, or why none stands there.
    fn locate(&self) -> Result<Telegram<'a>, ReadFault>
        ensures { MatchResult result (ShowsFirst self.now.bytes.now) (Unread self.now.bytes.now) }
    {
        if let Some(telegram) = self.search_from(0) {
            return Ok(telegram);
        }
        let Some(p) = self.first_soh() else {
            let end = self.bytes.len();
            return Err(ReadFault::AtLine(LineFault::NoSoh { end }));
        };
        let len = self.check_at(p)?;
        Ok(Telegram::new(self.bytes, p as u16, len))
    }
}

// The telegram of a burst, or none; a burst of more than 512 bytes is refused.
pub fn find(burst: &[u8]) -> Result<Option<Telegram<'_>>, ReadFault>
    ensures found { MatchResult result (λ o. MatchOption o (NoneStands burst.now) (ShowsFirst burst.now)) (Unread burst.now) }
    ensures short { OnOk result (IsShort burst.now) }
    ensures fault { IfErr result (λ e. e ≡ TooLong) }
{
    Ok(Burst::new(burst)?.search_from(0))
}

// The telegram of a burst, or the fault that its first SOH tells.
pub fn read(burst: &[u8]) -> Result<Telegram<'_>, ReadFault>
    ensures found { MatchResult result (ShowsFirst burst.now) (Unread burst.now) }
    ensures short { OnOk result (IsShort burst.now) }
{
    Burst::new(burst)?.locate()
}
