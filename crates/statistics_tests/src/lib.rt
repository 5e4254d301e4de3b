//! The statistics board on examples.

#![tactic(auto)]

#[cfg(test)]
mod tests {
    use board::Board;
    use readings::{Fault, Outcome, Reading};
    use refusals::Refusal;
    use statistics::{Statistics, StatisticsRefusal};
    use std::test::Fail;

    // The outcome's code, and its number where it is of type 15h.
    fn told(outcome: Outcome) -> (u8, i32) {
        match outcome {
            Outcome::Value(Reading::I32(x)) => (0x15, x),
            other => (other.code(), 0),
        }
    }

    // What a channel of the second of two slots, with windows of 3, shows after these samples.
    fn shown(samples: &[i32], channel: u16) -> Result<(u8, i32), StatisticsRefusal> {
        let mut memory = [0; 6];
        let mut board = Statistics::new(&mut memory, 2, 3)?;
        for sample in samples {
            let _ = board.put(1, 100, Outcome::Value(Reading::I32(*sample)));
        }
        Ok(told(board.look(1, channel)))
    }

    // The number of the refusal of a board over memory of 6, if there was one.
    fn refused(slots: usize, window: usize) -> Option<u8> {
        let mut memory = [0; 6];
        let made = Statistics::new(&mut memory, slots, window);
        made.err().map(|refusal| refusal.number())
    }

    // The number of the refusal of a put, if there was one.
    fn put(slot: usize, channel: u16, outcome: Outcome) -> Result<Option<u8>, StatisticsRefusal> {
        let mut memory = [0; 6];
        let mut board = Statistics::new(&mut memory, 2, 3)?;
        let refusal = board.put(slot, channel, outcome).err();
        Ok(refusal.map(|refusal| refusal.number()))
    }

    #[test]
    fn shows_figures(rt: HostRuntime) -> Result<(), Fail> {
        assert!(rt; shown(&[-1, -2], 100)? == (0x15, -2));
        assert!(rt; shown(&[-1, -2], 120)? == (0x15, -2));
        assert!(rt; shown(&[-1, -2], 140)? == (0x15, -1));
        assert!(rt; shown(&[-1, -2], 160)? == (0x15, -2));
        assert!(rt; shown(&[-1, -2], 180)? == (0x15, -3));
        assert!(rt; shown(&[-1, -2], 101)? == (0x24, 0));
        Ok(())
    }

    #[test]
    fn shows_faults(rt: HostRuntime) -> Result<(), Fail> {
        assert!(rt; shown(&[i32::MAX, 1], 180)? == (0x50, 0));
        assert!(rt; shown(&[i32::MAX, 1], 160)? == (0x15, 1073741824));
        assert!(rt; shown(&[i32::MIN, -1], 180)? == (0x51, 0));
        assert!(rt; shown(&[], 160)? == (0x54, 0));
        assert!(rt; shown(&[], 101)? == (0x24, 0));
        Ok(())
    }

    #[test]
    fn keeps_the_latest_samples(rt: HostRuntime) -> Result<(), Fail> {
        assert!(rt; shown(&[9, 8, 1, 2, 3], 180)? == (0x15, 6));
        assert!(rt; shown(&[9, 8, 1, 2, 3], 140)? == (0x15, 3));
        assert!(rt; shown(&[9, 8, 1, 2, 3], 100)? == (0x15, 3));
        Ok(())
    }

    #[test]
    fn leaves_neighbours_and_restarts(rt: HostRuntime) -> Result<(), Fail> {
        let mut memory = [0; 6];
        let mut board = Statistics::new(&mut memory, 2, 3)?;
        assert!(rt; board.slots() == 2);
        assert!(rt; board.put(0, 100, Outcome::Value(Reading::I32(7))).is_ok());
        assert!(rt; told(board.look(1, 100)) == (0x54, 0));
        board.restart(1);
        board.restart(2);
        assert!(rt; told(board.look(0, 100)) == (0x15, 7));
        assert!(rt; told(board.look(2, 100)) == (0x24, 0));
        board.restart(0);
        assert!(rt; told(board.look(0, 100)) == (0x54, 0));
        Ok(())
    }

    #[test]
    fn refuses(rt: HostRuntime) -> Result<(), Fail> {
        assert!(rt; refused(2, 3).is_none() && refused(3, 2).is_none());
        assert!(rt; refused(0, 3) == Some(42) && refused(33, 3) == Some(42));
        assert!(rt;
            refused(2, 0) == Some(42) && refused(2, 61) == Some(42) && refused(2, 4) == Some(42)
        );
        assert!(rt; put(1, 100, Outcome::Value(Reading::I32(7)))?.is_none());
        assert!(rt; put(2, 100, Outcome::Value(Reading::I32(7)))? == Some(20));
        assert!(rt; put(1, 120, Outcome::Value(Reading::I32(7)))? == Some(21));
        assert!(rt; put(1, 100, Outcome::Value(Reading::U32(7)))? == Some(22));
        assert!(rt; put(1, 100, Outcome::Fault(Fault::DataError))? == Some(22));
        Ok(())
    }
}
