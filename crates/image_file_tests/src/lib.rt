// Image files written and read: each expected value is worked out by hand from the file's form.
#![tactic(auto)]

#[cfg(test)]
mod tests {
    use image_file::{Refusal, read_image, write_image};
    use std::process::Abort;
    use std::test::Fail;

    // A file read to a buffer of so many words: the words read, or the refusal's number.
    struct Reading(&'static [u8], usize, Result<&'static [u16], u8>);

    static READINGS: [Reading; 31] = [
        // From nothing to seven bytes.
        Reading(b"", 4, Err(7)),
        Reading(b"A", 4, Err(7)),
        Reading(b"AP", 4, Err(7)),
        Reading(b"APC", 4, Err(7)),
        Reading(b"APC\x00", 4, Err(7)),
        Reading(b"APC\x00\x01", 4, Ok(&[])),
        Reading(b"APC\x00\x01\x82", 4, Err(7)),
        Reading(b"APC\x00\x01\x82\x03", 4, Ok(&[0x8203])),
        // The same lengths with nothing of the head.
        Reading(b"\x00", 4, Err(7)),
        Reading(b"\x00\x00\x00", 4, Err(7)),
        Reading(b"\x00\x00\x00\x00\x00", 4, Err(7)),
        Reading(b"\x82\x03\x92\x00\x82\x03\x92", 4, Err(7)),
        // One byte of the mark wrong.
        Reading(b"BPC\x00\x01", 4, Err(7)),
        Reading(b"aPC\x00\x01", 4, Err(7)),
        Reading(b"AQC\x00\x01", 4, Err(7)),
        Reading(b"APD\x00\x01", 4, Err(7)),
        // The versions 0, 2, 0x0100 and 0x0101.
        Reading(b"APC\x00\x00", 4, Err(7)),
        Reading(b"APC\x00\x02", 4, Err(7)),
        Reading(b"APC\x01\x00", 4, Err(7)),
        Reading(b"APC\x01\x01", 4, Err(7)),
        // Even lengths.
        Reading(b"APC\x00\x01\x82\x03\x92", 4, Err(7)),
        Reading(b"APC\x00\x01\x82\x03\x92\x00\x00", 4, Err(7)),
        // Two words to shorter buffers, an exact one and a longer one.
        Reading(b"APC\x00\x01\x82\x03\x92\x00", 0, Err(3)),
        Reading(b"APC\x00\x01\x82\x03\x92\x00", 1, Err(3)),
        Reading(b"APC\x00\x01\x82\x03\x92\x00", 2, Ok(&[0x8203, 0x9200])),
        Reading(b"APC\x00\x01\x00\xff\xff\x00", 3, Ok(&[0x00ff, 0xff00])),
        // No word and no buffer.
        Reading(b"APC\x00\x01", 0, Ok(&[])),
        Reading(b"", 0, Err(7)),
        // Too many words, and a wrong version, mark or length besides.
        Reading(b"APC\x00\x02\x82\x03", 0, Err(7)),
        Reading(b"BPC\x00\x01\x82\x03", 0, Err(7)),
        Reading(b"APC\x00\x01\x82\x03\x92", 0, Err(7)),
    ];

    // An image written to a buffer of so many bytes: the bytes written, or the refusal's number.
    struct Writing(&'static [u16], usize, Result<&'static [u8], u8>);

    const TWO_WORDS: [u8; 9] = [0x41, 0x50, 0x43, 0x00, 0x01, 0x82, 0x03, 0x92, 0x00];

    static WRITINGS: [Writing; 9] = [
        Writing(&[], 0, Err(6)),
        Writing(&[], 4, Err(6)),
        Writing(&[], 5, Ok(b"APC\x00\x01")),
        Writing(&[], 12, Ok(b"APC\x00\x01")),
        Writing(&[0x8203], 6, Err(6)),
        Writing(&[0x8203, 0x9200], 8, Err(6)),
        Writing(&[0x8203, 0x9200], 9, Ok(&TWO_WORDS)),
        Writing(&[0x8203, 0x9200], 12, Ok(&TWO_WORDS)),
        Writing(&[0x00ff], 12, Ok(b"APC\x00\x01\x00\xff")),
    ];

    fn front<T>(list: &[T], most: usize) -> &[T] {
        &list[..list.len().min(most)]
    }

    // The front stands at the buffer's front, with zeros behind it.
    fn padded<T: PartialEq + Default + Drop>(buffer: &[T], front: &[T]) -> bool {
        buffer
            .strip_prefix(front)
            .is_some_and(|rest| rest.iter().all(|item| *item == T::default()))
    }

    // A file, read over a buffer's first words, which are all ones before.
    // By itself beside `write`: the calls differ in both types. A row tells how much of the buffer is lent, and here it is cut once.
    fn read(file: &[u8], buffer: &mut [u16], words: usize) -> Result<usize, u8> {
        buffer.fill(0xffff);
        let end = buffer.len().min(words);
        read_image(file, &mut buffer[..end]).map_err(Refusal::number)
    }

    // An image, written over a buffer's first bytes, which are all ones before.
    fn write(image: &[u16], buffer: &mut [u8], bytes: usize) -> Result<usize, u8> {
        buffer.fill(0xff);
        let end = buffer.len().min(bytes);
        write_image(image, &mut buffer[..end]).map_err(Refusal::number)
    }

    // The outcome of a call, with what stands in its buffer, is the one told.
    fn is_told<T: PartialEq + Default + Drop>(
        outcome: Result<usize, u8>,
        buffer: &[T],
        told: Result<&[T], u8>,
    ) -> bool {
        outcome == told.map(|list| list.len()) && padded(buffer, told.unwrap_or(&[]))
    }

    // By itself beside `writes`: the rows and the buffers differ in their types.
    fn reads(row: &Reading) -> bool {
        let mut buffer = [0; 4];
        let outcome = read(row.0, &mut buffer, row.1);
        is_told(outcome, front(&buffer, row.1), row.2)
    }

    fn writes(row: &Writing) -> bool {
        let mut buffer = [0; 12];
        let outcome = write(row.0, &mut buffer, row.1);
        is_told(outcome, front(&buffer, row.1), row.2)
    }

    #[test]
    fn files_are_read(rt: HostRuntime) {
        assert_eq!(rt; READINGS.iter().position(|row| !reads(row)), None);
    }

    #[test]
    fn images_are_written(rt: HostRuntime) {
        assert_eq!(rt; WRITINGS.iter().position(|row| !writes(row)), None);
    }

    // The file of 65,536 words has 131,077 bytes, and behind it a word more stands in `file`.
    fn longest(rt: &impl Abort, image: &[u16], file: &mut [u8], back: &mut [u16]) {
        assert_eq!(rt; write(front(image, 65_537), file, 131_079), Err(5));
        assert!(rt; padded(file, b""));
        assert_eq!(rt; write(front(image, 65_536), file, 131_076), Err(6));
        assert_eq!(rt; write(front(image, 65_536), file, 131_077), Ok(131_077));
        assert_eq!(rt; read(front(file, 131_079), back, 65_537), Err(3));
        assert!(rt; padded(back, &[]));
        assert_eq!(rt; read(front(file, 131_077), back, 65_535), Err(3));
        assert_eq!(rt; read(front(file, 131_077), back, 65_536), Ok(65_536));
        assert!(rt; padded(back, image));
    }

    #[test]
    fn longest_image(rt: HostRuntime) -> Result<(), Fail> {
        let mut image = vec![in rt.alloc(); 0x8203u16; 65_537]?;
        let mut file = vec![in rt.alloc(); 0u8; 131_079]?;
        let mut back = vec![in rt.alloc(); 0u16; 65_537]?;
        image[65_536] = 0xffff;
        longest(&rt, &image, &mut file, &mut back);
        Ok(())
    }
}
