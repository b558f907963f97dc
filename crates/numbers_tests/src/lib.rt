// Tests of numbers: texts and the words that they are, worked out by hand.
#![tactic(auto)]

#[cfg(test)]
mod tests {
    use numbers::{Width, read_number};

    struct Row(&'static [u8], Option<u16>);

    static SIX: [Row; 16] = [
        Row(b"31", Some(31)),
        Row(b"32", None),
        Row(b"-32", Some(32)),
        Row(b"-33", None),
        Row(b"-1", Some(63)),
        Row(b"+5", Some(5)),
        Row(b"-0", Some(0)),
        Row(b"0x3f", Some(63)),
        Row(b"0x3F", Some(63)),
        Row(b"0x40", None),
        Row(b"0x03f", None),
        Row(b"0b111111", Some(63)),
        Row(b"0b1111111", None),
        Row(b"0b", None),
        Row(b"0x", None),
        Row(b"0000000000000000000000000000000000000000031", Some(31)),
    ];

    static EIGHT: [Row; 8] = [
        Row(b"127", Some(127)),
        Row(b"128", None),
        Row(b"-128", Some(128)),
        Row(b"-129", None),
        Row(b"0xff", Some(255)),
        Row(b"0x100", None),
        Row(b"0b11111111", Some(255)),
        Row(b"0b000000001", None),
    ];

    static SIXTEEN: [Row; 24] = [
        Row(b"32767", Some(32767)),
        Row(b"32768", None),
        Row(b"-32768", Some(32768)),
        Row(b"-32769", None),
        Row(b"65536", None),
        Row(b"99999999999999999999999999", None),
        Row(b"0xffff", Some(65535)),
        Row(b"0xFfFf", Some(65535)),
        Row(b"0x10000", None),
        Row(b"0x00001", None),
        Row(b"0b1111111111111111", Some(65535)),
        Row(b"0b10000000000000000", None),
        Row(b"0", Some(0)),
        Row(b"", None),
        Row(b"+", None),
        Row(b"-", None),
        Row(b"+-1", None),
        Row(b"-0x1", None),
        Row(b"0X1", None),
        Row(b"0B1", None),
        Row(b"0xg", None),
        Row(b"0b2", None),
        Row(b"1a", None),
        Row(b" 1", None),
    ];

    // The place of the first row that is read to another word.
    fn first_wrong(rows: &[Row], width: Width) -> Option<usize> {
        rows.iter()
            .position(|row| read_number(row.0, width) != row.1)
    }

    #[test]
    fn texts_are_read_to_their_words(rt: HostRuntime) {
        assert_eq!(rt; first_wrong(&SIX, Width::Six), None);
        assert_eq!(rt; first_wrong(&EIGHT, Width::Eight), None);
        assert_eq!(rt; first_wrong(&SIXTEEN, Width::Sixteen), None);
    }
}
