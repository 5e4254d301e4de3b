//! The ring at signed samples and at release words.

#![tactic(auto)]

#[cfg(test)]
mod tests {
    use refusals::Refusal;
    use ring::{Marks, Ring, RingRefusal};
    use std::test::Fail;

    // The k-th newest after these items.
    fn newest<T: Copy>(memory: &mut [T], items: &[T], k: usize) -> Result<T, RingRefusal> {
        let mut ring = Ring::new(memory)?;
        for item in items {
            ring.push(*item);
        }
        ring.newest(k)
    }

    #[test]
    fn keeps_the_latest_samples(rt: HostRuntime) -> Result<(), Fail> {
        let samples = [-1, -2, 7, i32::MIN, i32::MAX];
        assert!(rt; newest(&mut [0; 3], &samples, 0)? == i32::MAX);
        assert!(rt; newest(&mut [0; 3], &samples, 2)? == 7);
        assert!(rt; newest(&mut [0; 5], &samples, 4)? == -1);
        Ok(())
    }

    #[test]
    fn keeps_the_latest_release_word_in_a_memory_of_one(rt: HostRuntime) -> Result<(), Fail> {
        let words = [0x4070_0123, 0xb070_0123];
        assert!(rt; newest(&mut [0u32; 1], &words, 0)? == 0xb070_0123);
        assert!(rt; newest(&mut [0u32; 1], &words, 1) == Err(RingRefusal::NotHeld));
        assert!(rt; RingRefusal::NotHeld.number() == 41);
        Ok(())
    }

    #[test]
    fn refuses_memory_too_short_or_too_long(rt: HostRuntime) {
        assert!(rt; newest(&mut [], &[7], 0) == Err(RingRefusal::MemorySize));
        assert!(rt; newest(&mut [0; 4096], &[7], 0) == Ok(7));
        assert!(rt; newest(&mut [0; 4097], &[7], 0) == Err(RingRefusal::MemorySize));
        assert!(rt; RingRefusal::MemorySize.number() == 40);
    }

    // The marks of the ring in slot 1 of windows of 2, after these samples.
    fn pushed(memory: &mut [i32], samples: &[i32]) -> Option<Marks> {
        let mut marks = Marks::new();
        for sample in samples {
            marks = marks.push_in_window(memory, 2, 1, *sample)?;
        }
        Some(marks)
    }

    #[test]
    fn keeps_windows_apart(rt: HostRuntime) -> Result<(), Fail> {
        let mut memory = [0; 4];
        let marks = pushed(&mut memory, &[1, 2, 3]).ok_or("no window")?;
        assert!(rt; memory == [0, 0, 3, 2]);
        let window = ring::window(&memory, 2, 1).ok_or("no window")?;
        let (older, newer) = marks.as_slices(window);
        assert!(rt; older == [2].as_slice() && newer == [3].as_slice());
        Ok(())
    }
}
