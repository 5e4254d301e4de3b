// The table board on examples.

#![tactic(auto)]

#[cfg(test)]
mod tests {
    use board::{Board, PutRefusal};
    use readings::{Fault, Kind, Outcome, Reading};
    use refusals::Refusal;
    use std::test::Fail;
    use table::{Record, Table};

    fn word(slot: u8, channel: u16, n: u16) -> Record {
        Record {
            slot,
            channel,
            kind: Kind::U16,
            outcome: Outcome::Value(Reading::U16(n)),
        }
    }

    // The number of the refusal, or none where the table was made.
    fn making(records: &mut [Record]) -> Option<u8> {
        match Table::new(records) {
            Ok(_) => None,
            Err(refusal) => Some(refusal.number()),
        }
    }

    // The number of the refusal, or none where the put was taken.
    fn putting(put: Result<(), PutRefusal>) -> Option<u8> {
        let refusal = put.err()?;
        Some(refusal.number())
    }

    // The value, or the fault's code, which no value of these tests has.
    fn shown(outcome: Outcome) -> u16 {
        match outcome {
            Outcome::Value(Reading::U16(n)) => n,
            Outcome::Value(_) => 0,
            Outcome::Fault(fault) => u16::from(u8::from(fault)),
        }
    }

    fn float_bits(outcome: Outcome) -> Option<u32> {
        match outcome {
            Outcome::Value(Reading::F32(x)) => Some(x.to_bits()),
            _ => None,
        }
    }

    #[test]
    fn a_put_is_looked_at_and_touches_no_neighbour(rt: HostRuntime) -> Result<(), Fail> {
        let mut records = [word(0, 100, 1000), word(31, 100, 2000), word(31, 101, 3000)];
        let Ok(mut table) = Table::new(&mut records) else {
            return Err(Fail::new("refused"));
        };
        assert!(rt; table.slots() == 32);
        let put = table.put(31, 100, Outcome::Value(Reading::U16(4000)));
        assert!(rt; putting(put) == None);
        table.restart(31);
        assert!(rt; shown(table.look(31, 100)) == 4000);
        assert!(rt; shown(table.look(0, 100)) == 1000);
        assert!(rt; shown(table.look(31, 101)) == 3000);
        assert!(rt; shown(table.look(0, 101)) == 0x24);
        assert!(rt; shown(table.look(32, 100)) == 0x24);
        Ok(())
    }

    #[test]
    fn puts_are_refused_and_faults_stored(rt: HostRuntime) -> Result<(), Fail> {
        let mut records = [word(3, 100, 1000)];
        let Ok(mut table) = Table::new(&mut records) else {
            return Err(Fail::new("refused"));
        };
        let seven = Outcome::Value(Reading::U16(7));
        assert!(rt; putting(table.put(32, 100, seven)) == Some(20));
        assert!(rt; putting(table.put(3, 101, seven)) == Some(21));
        assert!(rt; putting(table.put(3, 100, Outcome::Value(Reading::I16(7)))) == Some(22));
        assert!(rt; putting(table.put(3, 100, Outcome::Fault(Fault::InvalidChannel))) == Some(22));
        assert!(rt; shown(table.look(3, 100)) == 1000);
        assert!(rt; putting(table.put(3, 100, Outcome::Fault(Fault::ChannelOff))) == None);
        assert!(rt; shown(table.look(3, 100)) == 0x36);
        Ok(())
    }

    #[test]
    fn a_float_keeps_its_bits(rt: HostRuntime) -> Result<(), Fail> {
        let mut records = [Record {
            slot: 0,
            channel: 100,
            kind: Kind::F32,
            outcome: Outcome::Fault(Fault::DataError),
        }];
        let Ok(mut table) = Table::new(&mut records) else {
            return Err(Fail::new("refused"));
        };
        let minus_zero = Outcome::from_float_bits::<f32>(0x8000_0000);
        let put = table.put(0, 100, minus_zero);
        assert!(rt; putting(put) == None);
        assert!(rt; float_bits(table.look(0, 100)) == Some(0x8000_0000));
        Ok(())
    }

    #[test]
    fn no_table_is_made_for_each_reason(rt: HostRuntime) {
        assert!(rt; making(&mut [word(0, 0, 0), word(0, 65534, 0), word(1, 0, 0)]) == None);
        assert!(rt; making(&mut [word(0, 0, 0); 4097]) == Some(43));
        assert!(rt; making(&mut [word(32, 0, 0)]) == Some(43));
        assert!(rt; making(&mut [word(0, 65535, 0)]) == Some(43));
        let mut absent = word(0, 0, 0);
        absent.outcome = Outcome::Fault(Fault::InvalidChannel);
        assert!(rt; making(&mut [absent]) == Some(43));
        let mut mistyped = word(0, 0, 0);
        mistyped.kind = Kind::U32;
        assert!(rt; making(&mut [mistyped]) == Some(43));
        assert!(rt; making(&mut [word(5, 7, 0), word(5, 8, 0), word(5, 7, 1)]) == Some(43));
    }
}
