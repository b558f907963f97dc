// Tests of the printed lines.
#![tactic(auto)]

#[cfg(test)]
mod tests {
    use report::{Refusal, Short, write_refusal};

    // The line stands at the front of a buffer of 30 bytes, zeros behind it.
    fn prints(refusal: impl Into<Refusal>, line: &[u8]) -> bool {
        let mut out = [7u8; 30];
        write_refusal(refusal.into(), &mut out) == Ok(line.len())
            && out.starts_with(line)
            && out.ends_with(&[0, 0, 0])
    }

    fn too_short(refusal: Refusal) -> bool {
        let mut out = [7u8; 9];
        write_refusal(refusal, &mut out) == Err(Short) && out == [0; 9]
    }

    #[test]
    fn refusals_have_their_lines(rt: HostRuntime) {
        assert!(rt; prints(machine::Refusal::Memory, b"refused 4\n"));
        assert!(rt; prints(machine::Refusal::Address, b"refused 20\n"));
        assert!(rt; prints(image_file::Refusal::Mark, b"refused 7\n"));
        assert!(rt; prints(text_port::Refusal::Length, b"refused 1\n"));
        assert!(rt; prints(text_port::Refusal::Token(2), b"refused 15 token 2\n"));
        assert!(rt;
            prints(
                text_port::Refusal::Token(65536),
                b"refused 15 token 65536\n"
            )
        );
        assert!(rt; too_short(Refusal::Machine(machine::Refusal::Memory)));
    }
}
