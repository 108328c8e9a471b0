// The whole of a program that tells lists, with io's own error, on a few lists: what it answers must be what the file `stdout` says. And how texts are shown.
#![tactic(auto)]

use std::io;
use transcript::answer;

fn main(rt: HostRuntime) -> io::Result<()> {
    answer(&rt)
}

#[cfg(test)]
mod tests {
    use std::io::Write;
    use std::test::Fail;
    use transcript::shown::{Escaped, put_text};

    #[test]
    fn texts_are_shown_escaped(rt: HostRuntime) -> Result<(), Fail> {
        let mut out = Vec::new(rt.alloc());
        write!(out, "{}", Escaped(b"s p\\a\0\x7F\xFFn"))?;
        assert!(rt; out.as_slice() == b"s\\20p\\5Ca\\00\\7F\\FFn".as_slice());
        Ok(())
    }

    // By Display and by bytes a text is shown the same.
    #[test]
    fn both_ways_show_the_same(rt: HostRuntime) -> Result<(), Fail> {
        for b in 0..=255u8 {
            let mut shown = Vec::new(rt.alloc());
            write!(shown, "{}", Escaped(&[b, b]))?;
            let mut put = Vec::new(rt.alloc());
            put_text(&mut put, &[b, b])?;
            assert!(rt; shown.as_slice() == put.as_slice(), "at {b}");
        }
        Ok(())
    }
}
