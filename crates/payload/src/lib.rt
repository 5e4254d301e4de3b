//! The payload of a telegram while it is put together.

#![tactic(auto)]

ghost use Rattle.std.specs.Prelude.{◌≡◌, ◌≤◌, [], length, slice_index};
ghost use Rattle.payload.specs.Appended.{Appended, Copied};

use std::error::Error;
use std::fmt;
use std::marker::Model;

/// Up to `N` bytes, put together one part after another.
#[derive(Clone, Copy, Debug, PartialEq, Eq)]
pub struct Bytes<const N: usize> {
    bytes: [u8; N],
    len: usize,
}

/// What a telegram can carry behind command and command version.
pub type Payload = Bytes<210>;

// Clauses see the bytes alone. Only zeros lie behind them, so nothing of an earlier content can be read there.
impl<const N: usize> Model for Bytes<N> {
    ghost use Rattle.std.specs.Prelude.{◌≡◌, ℕ, ◌-◌, ◌≤◌, List, ◌++◌, length, take, drop, replicate};
    ghost use Rattle.payload.specs.Zeros.{bytes_given, length_given};

    ghost Value = { List ℕ };

    ghost view = { λ b. take b.len b.bytes };

    ghost invariant = { λ b. (length b.bytes ≡ N) × (b.len ≤ N) × (drop b.len b.bytes ≡ replicate (N - b.len) 0) };

    ghost inverse = { λ xs. record { bytes = xs ++ replicate (N - length xs) 0; len = length xs } };

    ghost inverse_ok = { λ b h i. record {
      bytes = bytes_given N b.len b.bytes h.0 h.1 h.2 i;
      len = length_given N b.len b.bytes h.0 h.1 i;
    } };
}

/// There is no room for so many bytes.
#[derive(Clone, Copy, Debug, PartialEq, Eq)]
pub struct Full;

impl fmt::Display for Full {
    fn fmt<W: fmt::Write>(&self, f: &mut fmt::Formatter<W>) -> fmt::Result {
        f.write_str("there is no room for so many bytes")
    }
}

impl Error for Full {}

impl<const N: usize> Bytes<N> {
    /// No bytes.
    pub fn new() -> Bytes<N>
        ensures { result ≡ [] }
    {
        Bytes {
            bytes: [0; N],
            len: 0,
        }
    }

    /// A copy of `bytes`, if there are no more than `N`.
    pub fn from_slice(bytes: &[u8]) -> Result<Bytes<N>, Full>
        ensures { Copied N bytes.now result }
    {
        let mut copy = Bytes::new();
        copy.append(bytes)?;
        Ok(copy)
    }

    pub fn len(&self) -> usize
        ensures count { result ≡ length self.now }
        ensures room { result ≤ N }
    {
        self.as_slice().len()
    }

    /// The first byte, which is the status in a reply; 0 where there is none.
    pub fn status(&self) -> u8
        ensures { result ≡ slice_index self.now 0 }
    {
        self.as_slice().first().copied().unwrap_or(0)
    }

    /// The bytes so far.
    pub fn as_slice(&self) -> &[u8]
        ensures bytes { result.now ≡ self.now }
        ensures room { length result.now ≤ N }
    {
        &self.bytes[..self.len]
    }

    /// Adds bytes at the end; nothing is added where they would be more than `N` in all.
    pub fn append(&mut self, more: &[u8]) -> Result<(), Full>
        ensures { Appended N self.old more.now self.new result }
    {
        let start = self.len;
        let n = more.len();
        if n > N - start {
            return Err(Full);
        }
        let memory = self.bytes.as_mut_slice();
        memory[start..start + n].copy_from_slice(more);
        self.len = start + n;
        Ok(())
    }
}

#[cfg(test)]
mod tests {
    use crate::{Bytes, Full, Payload};
    use std::test::Fail;

    #[test]
    fn has_room_for_so_many_bytes_and_no_more(rt: HostRuntime) -> Result<(), Fail> {
        let mut payload = Payload::new();
        assert!(rt; payload.status() == 0 && payload.len() == 0);
        payload.append(&[7; 209])?;
        assert!(rt; payload.append(&[1, 2]) == Err(Full));
        payload.append(&[1])?;
        assert!(rt; payload.status() == 7 && payload.len() == 210);
        let copy = Bytes::<3>::from_slice(&[1, 2])?;
        assert!(rt; copy == Bytes::from_slice(&[1, 2])? && copy.as_slice() == [1, 2].as_slice());
        assert!(rt; Bytes::<1>::from_slice(&[1, 2]) == Err(Full));
        Ok(())
    }
}
