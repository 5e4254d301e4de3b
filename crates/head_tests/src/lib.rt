// A head run on the manual's poll, on broadcasts, and at its refusals.

#![tactic(auto)]

#[cfg(test)]
mod tests {
    use address::Address;
    use board::Board;
    use head::{Head, LineRecord, Talk};
    use readings::{Fault, Kind, Outcome, Reading};
    use refusals::Refusal;
    use station::StationLine;
    use table::{Record, Table, TableRefusal};

    const POLL: [u8; 16] = [
        0x01, 0x10, 0x01, 0x70, 0x01, 0xf0, 0x04, 0x02, 0x23, 0x10, 0x64, 0x00, 0x03, 0x61, 0xd9,
        0x04,
    ];

    fn line(address: u16, first: u32) -> StationLine {
        StationLine {
            address: Address(address),
            first,
            size: 16,
            protected: 4,
        }
    }

    // The number that a start of these lines over a memory of 32 bytes is refused with, or none.
    fn started(lines: &[StationLine]) -> Result<Option<u8>, TableRefusal> {
        let mut records = [];
        let board = Table::new(&mut records)?;
        let refusal = Head::start(lines, 32, &board).err();
        Ok(refusal.map(|refusal| refusal.number()))
    }

    #[test]
    fn start_is_refused_rule_by_rule(rt: HostRuntime) -> Result<(), TableRefusal> {
        assert!(rt; started(&[])? == Some(1));
        assert!(rt; started(&[line(0xf001, 0)])? == Some(2));
        assert!(rt; started(&[line(0x7001, 0), line(0x7001, 16)])? == Some(3));
        assert!(rt; started(&[line(0x7001, 17)])? == Some(4));
        assert!(rt; started(&[line(0x7001, 0), line(0x7002, 15)])? == Some(5));
        assert!(rt; started(&[line(0x7001, 0), line(0x7002, 16)])? == None);
        Ok(())
    }

    // The reply to the manual's poll where channel 100 of the second station is at float bits 41E154F5h.
    fn polled(reply: &mut [u8], line_record: &mut LineRecord) -> Option<usize> {
        let warm = Outcome::from_float_bits::<f32>(0x41e1_54f5);
        let mut records = [
            Record {
                slot: 0,
                channel: 100,
                kind: Kind::F32,
                outcome: Outcome::Fault(Fault::DataError),
            },
            Record {
                slot: 1,
                channel: 100,
                kind: Kind::F32,
                outcome: warm,
            },
        ];
        let mut board = Table::new(&mut records).ok()?;
        let mut head = Head::start(&[line(0x7002, 0), line(0x7001, 16)], 32, &board).ok()?;
        let mut memory = [0; 32];
        let drawn = head.burst(&mut board, &mut memory, line_record, &POLL, reply);
        Some(drawn.ok()??.length)
    }

    #[test]
    fn manuals_poll_draws_the_manuals_reply(rt: HostRuntime) {
        let mut reply = [0xaa; 230];
        let mut line_record = LineRecord::new();
        assert!(rt; polled(&mut reply, &mut line_record) == Some(22));
        assert!(rt; !line_record.talking);
        let printed = [
            0x01, 0x10, 0x01, 0xf0, 0x01, 0x70, 0x0a, 0x02, 0x23, 0x10, 0x00, 0x64, 0x00, 0x16,
            0xf5, 0x54, 0xe1, 0x41, 0x03, 0x90, 0x86, 0x04,
        ];
        assert!(rt; reply[..22] == printed[..]);
        assert!(rt; reply[22] == 0xaa);
        assert!(rt; polled(&mut [0; 223], &mut line_record) == None);
    }

    #[test]
    fn line_listens_when_a_carrier_test_ends(rt: HostRuntime) {
        let mut line_record = LineRecord::new();
        line_record.begin();
        assert!(rt; line_record.talking);
        {
            let _test = Talk(&mut line_record);
        }
        assert!(rt; !line_record.talking);
    }
}
