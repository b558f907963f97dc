// Ports at work: each expected value is worked out by hand from what a port is.
#![tactic(auto)]

#[cfg(test)]
mod tests {
    use port::{Dry, Full, Polarity, Port, Tape};

    #[test]
    fn tape_is_read_in_order_then_dry(rt: HostRuntime) {
        let mut out = [0; 1];
        let mut tape = Tape::new(&[7, 0, 0xffff], &mut out);
        assert_eq!(rt; tape.take(), Ok(7));
        assert_eq!(rt; tape.take(), Ok(0));
        assert_eq!(rt; tape.take(), Ok(0xffff));
        assert_eq!(rt; tape.take(), Err(Dry));
        assert_eq!(rt; tape.take(), Err(Dry));
    }

    #[test]
    fn tape_is_sent_to_until_full(rt: HostRuntime) {
        let mut out = [0; 2];
        let mut tape = Tape::new(&[], &mut out);
        assert_eq!(rt; tape.send(5), Ok(()));
        assert_eq!(rt; tape.send(6), Ok(()));
        assert_eq!(rt; tape.send(7), Err(Full));
        assert!(rt; tape.sent() == [5, 6].as_slice());
    }

    #[test]
    fn counts_follow(rt: HostRuntime) {
        let mut out = [0; 3];
        let mut tape = Tape::new(&[1, 2], &mut out);
        assert_eq!(rt; tape.count_waiting(), 2);
        assert_eq!(rt; tape.count_free(), 3);
        assert_eq!(rt; tape.take(), Ok(1));
        assert_eq!(rt; tape.count_waiting(), 1);
        assert_eq!(rt; tape.count_free(), 3);
        assert_eq!(rt; tape.send(9), Ok(()));
        assert_eq!(rt; tape.count_waiting(), 1);
        assert_eq!(rt; tape.count_free(), 2);
    }

    #[test]
    fn buffer_behind_stays_as_it_was(rt: HostRuntime) {
        let mut out = [11, 12, 13];
        let mut tape = Tape::new(&[1], &mut out);
        assert_eq!(rt; tape.take(), Ok(1));
        assert_eq!(rt; tape.send(5), Ok(()));
        assert!(rt; tape.sent() == [5].as_slice());
        assert!(rt; out == [5, 12, 13]);
    }

    #[test]
    fn refusals_alter_nothing(rt: HostRuntime) {
        let mut out = [11];
        let mut tape = Tape::new(&[], &mut out);
        assert_eq!(rt; tape.take(), Err(Dry));
        assert_eq!(rt; tape.count_free(), 1);
        assert_eq!(rt; tape.send(5), Ok(()));
        assert_eq!(rt; tape.send(6), Err(Full));
        assert_eq!(rt; tape.count_waiting(), 0);
        assert!(rt; tape.sent() == [5].as_slice());
        assert!(rt; out == [5]);
    }

    #[test]
    fn empty_list_and_empty_buffer(rt: HostRuntime) {
        let mut tape = Tape::new(&[], &mut []);
        assert_eq!(rt; tape.count_waiting(), 0);
        assert_eq!(rt; tape.count_free(), 0);
        assert_eq!(rt; tape.take(), Err(Dry));
        assert_eq!(rt; tape.send(1), Err(Full));
        assert!(rt; tape.sent() == [].as_slice());
    }

    // 0x00ff ^ 0x0f0f is 0x0ff0.
    #[test]
    fn polarity_turns_what_is_taken_only(rt: HostRuntime) {
        let mut out = [0; 2];
        let mut port = Polarity::new(Tape::new(&[0x00ff, 0], &mut out), 0x0f0f);
        assert_eq!(rt; port.count_waiting(), 2);
        assert_eq!(rt; port.take(), Ok(0x0ff0));
        assert_eq!(rt; port.take(), Ok(0x0f0f));
        assert_eq!(rt; port.take(), Err(Dry));
        assert_eq!(rt; port.send(0x00ff), Ok(()));
        assert_eq!(rt; port.count_free(), 1);
        assert!(rt; port.below().sent() == [0x00ff].as_slice());
    }

    // 0xff00 ^ 0x0ff0 is 0xf0f0, and 0x1234 ^ 0xf0f0 is 0xe2c4.
    #[test]
    fn polarity_over_polarity_joins_the_masks(rt: HostRuntime) {
        let mut out = [0; 1];
        let mut port = Polarity::new(
            Polarity::new(Tape::new(&[0x1234, 0x1234], &mut out), 0xff00),
            0x0ff0,
        );
        assert_eq!(rt; port.take(), Ok(0xe2c4));
        assert_eq!(rt; port.send(3), Ok(()));
        assert_eq!(rt; port.send(4), Err(Full));
        let mut below = port.into_below();
        assert_eq!(rt; below.take(), Ok(0xed34));
        assert!(rt; below.into_below().sent() == [3].as_slice());
    }

    #[test]
    fn same_mask_twice_is_none(rt: HostRuntime) {
        let mut out = [0; 1];
        let mut port = Polarity::new(
            Polarity::new(Tape::new(&[0xabcd], &mut out), 0xffff),
            0xffff,
        );
        assert_eq!(rt; port.take(), Ok(0xabcd));
    }
}
