// The text port at work: each expected value is worked out by hand from the form of a text.
#![tactic(auto)]

#[cfg(test)]
mod tests {
    use port::{Dry, Full, Polarity, Port};
    use std::process::Abort;
    use std::test::Fail;
    use text_port::{Refusal, TextPort, check_text};

    // These words of a text wait, and no more.
    fn waits(rt: &impl Abort, text: &[u8], words: &[u16]) {
        let mut port = TextPort::new(text, &mut []);
        assert_eq!(rt; port.count_waiting(), words.len());
        for word in words {
            assert_eq!(rt; port.take(), Ok(*word));
        }
        assert_eq!(rt; port.take(), Err(Dry));
    }

    // The text is accepted, and gives these words and no more.
    fn read(rt: &impl Abort, text: &[u8], words: &[u16]) {
        assert_eq!(rt; check_text(text), Ok(()));
        waits(rt, text, words);
    }

    // The text is refused, and no word of it waits.
    fn refused(rt: &impl Abort, text: &[u8], refusal: Refusal, number: u8) {
        assert_eq!(rt; check_text(text), Err(refusal));
        assert_eq!(rt; refusal.number(), number);
        waits(rt, text, &[]);
    }

    fn bad_token(rt: &impl Abort, text: &[u8], at: usize) {
        refused(rt, text, Refusal::Token(at), 15);
    }

    #[test]
    fn texts_are_read(rt: HostRuntime) {
        read(&rt, b"", &[]);
        read(&rt, b" \t\r\n ", &[]);
        read(&rt, b"1\r\n2\r\n", &[1, 2]);
        read(&rt, b"\n\n 7", &[7]);
        read(&rt, b"0xFFFF -1 +5 0b1", &[0xffff, 0xffff, 5, 1]);
    }

    #[test]
    fn bad_tokens_have_their_number(rt: HostRuntime) {
        bad_token(&rt, b"x 1 2", 1);
        bad_token(&rt, b"1 12a\n3", 2);
        bad_token(&rt, b"1 2 65536", 3);
        bad_token(&rt, b"1\x00 2", 1);
        bad_token(&rt, b"1,2", 1);
        bad_token(&rt, b"3 \x00", 2);
    }

    #[test]
    fn length_is_bounded(rt: HostRuntime) -> Result<(), Fail> {
        let most = vec![in rt.alloc(); b' '; 65_536]?;
        read(&rt, &most, &[]);
        let more = vec![in rt.alloc(); b'x'; 65_537]?;
        refused(&rt, &more, Refusal::Length, 1);
        Ok(())
    }

    // So many places are free; a send to each writes a line, and one more is refused.
    fn places(rt: &impl Abort, buffer: &mut [u8], free: usize, written: &[u8]) {
        let mut port = TextPort::new(b"", buffer);
        assert_eq!(rt; port.count_free(), free);
        for _ in 0..free {
            assert_eq!(rt; port.send(0xabcd), Ok(()));
        }
        assert_eq!(rt; port.send(1), Err(Full));
        assert_eq!(rt; port.count_free(), 0);
        assert!(rt; port.written() == written);
    }

    #[test]
    fn five_bytes_are_a_place(rt: HostRuntime) {
        places(&rt, &mut [], 0, b"");
        places(&rt, &mut [1; 4], 0, b"");
        places(&rt, &mut [1; 5], 1, b"abcd\n");
        places(&rt, &mut [1; 9], 1, b"abcd\n");
        places(&rt, &mut [1; 10], 2, b"abcd\nabcd\n");
    }

    #[test]
    fn lines_are_written_and_the_rest_stays(rt: HostRuntime) {
        let mut out = *b".............";
        let mut port = TextPort::new(b"9 8", &mut out);
        assert_eq!(rt; port.send(3), Ok(()));
        assert_eq!(rt; port.take(), Ok(9));
        assert_eq!(rt; port.send(0xabcd), Ok(()));
        assert_eq!(rt; port.send(5), Err(Full));
        assert_eq!(rt; port.count_waiting(), 1);
        assert!(rt; port.written() == b"0003\nabcd\n".as_slice());
        assert!(rt; out == *b"0003\nabcd\n...");
    }

    // 0x00ff ^ 0x0f0f is 0x0ff0.
    #[test]
    fn polarity_stands_over_a_text(rt: HostRuntime) {
        let mut out = [0; 5];
        let mut port = Polarity::new(TextPort::new(b"0x00ff", &mut out), 0x0f0f);
        assert_eq!(rt; port.take(), Ok(0x0ff0));
        assert_eq!(rt; port.send(0x00ff), Ok(()));
        assert!(rt; port.below().written() == b"00ff\n".as_slice());
    }
}
