// A telegram where it lies in its burst.
ghost use Rattle.std.specs.Prelude.{◌≡◌, ◌+◌, ◌-◌, ◌^◌, ◌<◌};
ghost use Rattle.telegram.specs.Layout.{at, word, frame_of};
ghost use Rattle.telegram.specs.View.{IsPart, burst_of, frame};

use address::Address;

// Some bytes of a burst, which know their position there.
#[derive(Clone, Copy, Debug, PartialEq, Eq)]
pub struct Part<'a> {
    pub position: usize,
    pub bytes: &'a [u8],
}

impl Part<'_> {
    // The number in its first two bytes, low byte first; a byte that is not there counts 0.
    pub fn number(&self) -> u16
        ensures { result ≡ word self.now.bytes.now 0 }
    {
        word_at(self.bytes, 0)
    }
}

// The telegram that begins at `start`. What would lie past the end of the burst reads as nothing or 0, so no question
// can go out of bounds; of a telegram that `find` or `read` gives, all of it lies in the burst.
#[derive(Clone, Copy, Debug, PartialEq, Eq)]
pub struct Telegram<'a> {
    burst: &'a [u8],
    start: u16,
    len: u8,
}

// What a telegram says.
#[derive(Clone, Copy, Debug, PartialEq, Eq)]
pub struct Fields<'a> {
    pub version: u8,
    pub receiver: Address,
    pub sender: Address,
    pub command: u8,
    pub command_version: u8,
    pub payload: &'a [u8],
}

fn byte_at(burst: &[u8], i: usize) -> u8
    ensures { result ≡ at burst.now i }
{
    burst.get(i).copied().unwrap_or(0)
}

fn word_at(burst: &[u8], i: usize) -> u16
    requires { i < 2 ^ 32 }
    ensures { result ≡ word burst.now i }
{
    u16::from_le_bytes([byte_at(burst, i), byte_at(burst, i + 1)])
}

impl<'a> Telegram<'a> {
    // A view over the burst at the telegram that begins at `start` and has this len.
    pub fn new(burst: &'a [u8], start: u16, len: u8) -> Telegram<'a>
        ensures over { burst_of result ≡ burst.now }
        ensures start { result.start ≡ start }
        ensures len { result.len ≡ len }
    {
        Telegram { burst, start, len }
    }

    #[tactic(auto, using(crate::proofs::Parts::clamped))]
    fn part(&self, offset: usize, count: usize) -> Part<'a>
        requires offset { offset < 2 ^ 16 }
        requires count { count < 2 ^ 16 }
        ensures { IsPart (burst_of self.now) (self.now.start + offset) count result }
    {
        let burst = self.burst;
        let position = usize::from(self.start) + offset;
        let from = position.min(burst.len());
        let to = (position + count).min(burst.len());
        Part {
            position,
            bytes: &burst[from..to],
        }
    }

    // Where its SOH stands in the burst.
    pub fn position(&self) -> usize
        ensures { result ≡ self.now.start }
    {
        usize::from(self.start)
    }

    // How many bytes it has, SOH to EOT.
    pub fn length(&self) -> usize
        ensures { result ≡ 12 + self.now.len }
    {
        12 + usize::from(self.len)
    }

    pub fn version(&self) -> Part<'a>
        ensures { IsPart (burst_of self.now) (self.now.start + 1) (1) result }
    {
        self.part(1, 1)
    }

    pub fn receiver(&self) -> Part<'a>
        ensures { IsPart (burst_of self.now) (self.now.start + 2) (2) result }
    {
        self.part(2, 2)
    }

    pub fn sender(&self) -> Part<'a>
        ensures { IsPart (burst_of self.now) (self.now.start + 4) (2) result }
    {
        self.part(4, 2)
    }

    pub fn command(&self) -> Part<'a>
        ensures { IsPart (burst_of self.now) (self.now.start + 8) (1) result }
    {
        self.part(8, 1)
    }

    pub fn command_version(&self) -> Part<'a>
        ensures { IsPart (burst_of self.now) (self.now.start + 9) (1) result }
    {
        self.part(9, 1)
    }

    pub fn payload(&self) -> Part<'a>
        ensures { IsPart (burst_of self.now) (self.now.start + 10) (self.now.len - 2) result }
    {
        self.part(10, usize::from(self.len).saturating_sub(2))
    }

    pub fn checksum(&self) -> Part<'a>
        ensures { IsPart (burst_of self.now) (self.now.start + (9 + self.now.len)) (2) result }
    {
        self.part(9 + usize::from(self.len), 2)
    }

    // The values of the fields.
    pub fn fields(&self) -> Fields<'a>
        ensures { frame result ≡ frame_of (burst_of self.now) self.now.start self.now.len }
    {
        let p = usize::from(self.start);
        Fields {
            version: byte_at(self.burst, p + 1),
            receiver: Address(word_at(self.burst, p + 2)),
            sender: Address(word_at(self.burst, p + 4)),
            command: byte_at(self.burst, p + 8),
            command_version: byte_at(self.burst, p + 9),
            payload: self.payload().bytes,
        }
    }
}
