// The published vectors and the edges of telegrams.

#![tactic(auto)]

#[cfg(test)]
mod tests {
    use address::Address;
    use burst::{ReadFault, find, read, relay};
    use checksum::crc;
    use refusals::Refusal;
    use telegram::{Fields, write};

    // The number that reading a burst is refused with, or none where a telegram stands in it.
    fn fault_of(burst: &[u8]) -> Option<u8> {
        let fault = read(burst).err()?;
        Some(fault.number())
    }

    // The position of the fault, or none where there is no fault or it has none.
    fn place_of(burst: &[u8]) -> Option<usize> {
        let place = read(burst).err()?.place()?;
        Some(place.position)
    }

    // The length that a telegram with this payload is written in, or the number of the refusal.
    fn written(payload: &[u8], buffer: &mut [u8]) -> Result<usize, u8> {
        let fields = Fields {
            version: 0x10,
            receiver: Address(0x7001),
            sender: Address(0xf001),
            command: 0x23,
            command_version: 0x10,
            payload,
        };
        write(&fields, buffer).map_err(|refusal| refusal.number())
    }

    #[test]
    fn check_value_of_the_manual(rt: HostRuntime) {
        assert!(rt; crc(b"123456789") == 0x6f91);
    }

    #[test]
    fn payload_of_210_bytes_is_the_longest(rt: HostRuntime) {
        let mut buffer = [0xaau8; 230];
        assert!(rt; written(&[7; 210], &mut buffer) == Ok(224));
        assert!(rt; buffer[224] == 0xaa);
        assert!(rt; fault_of(&buffer) == None);
        assert!(rt; written(&[7; 211], &mut buffer) == Err(36));
        assert!(rt; written(&[7; 211], &mut [0; 223]) == Err(32));
    }

    #[test]
    fn len_213_is_out_of_range(rt: HostRuntime) {
        let mut buffer = [0u8; 240];
        assert!(rt; written(&[7; 210], &mut buffer) == Ok(224));
        assert!(rt; buffer[6] == 212);
        buffer[6] = 213;
        assert!(rt; fault_of(&buffer) == Some(61));
        assert!(rt; place_of(&buffer) == Some(6));
    }

    #[test]
    fn burst_of_513_bytes_is_too_long(rt: HostRuntime) {
        assert!(rt; fault_of(&[0; 512]) == Some(60));
        assert!(rt; place_of(&[0; 512]) == Some(512));
        assert!(rt; fault_of(&[0; 513]) == Some(10));
        assert!(rt; place_of(&[0; 513]) == None);
        assert!(rt; find(&[0; 513]) == Err(ReadFault::TooLong));
    }

    #[test]
    fn telegram_is_passed_on_without_noise(rt: HostRuntime) {
        let burst = b"\xff\x01\x10\x01\x70\x01\xf0\x04\x02\x23\x10\x64\x00\x03\x61\xd9\x04\x00";
        let mut buffer = [0u8; 224];
        assert!(rt; relay(burst, &mut buffer) == Ok(16));
        assert!(rt;
            buffer[0] == 0x01 && buffer[8] == 0x23 && buffer[14] == 0xd9 && buffer[16] == 0
        );
    }
}
