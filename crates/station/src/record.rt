// What a station is, besides its settings and its share.
use address::Address;

// What is fixed at the start: the address, where the station's window of the settings memory begins, how many bytes it
// has, and how many of its leading bytes may not be written.
#[derive(Clone, Copy, Debug, PartialEq, Eq)]
pub struct StationLine {
    pub address: Address,
    pub first: u32,
    pub size: u32,
    pub protected: u32,
}

// What changes.
#[derive(Clone, Copy, Debug, PartialEq, Eq)]
pub struct Record {
    // Seconds.
    pub clock: u32,
    // What command 26h tells.
    pub condition: u8,
    // The status of the previous reply.
    pub last: u8,
}
