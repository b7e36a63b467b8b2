use crate::{ask, refused_line};
use bus::Ranking;
use refusal::{Layer, Refusal};
use std::test::Fail;

#[test]
fn questions(rt: HostRuntime) -> Result<(), Fail> {
    let question = ask(b"EL\n\x00\n")?;
    assert_eq!(rt; question.ranking, Ranking::El);
    assert_eq!(rt; question.file, b"\x00\n".as_slice());
    for input in ["", "EL", "el\n", "\nEL\n"] {
        assert_eq!(rt;
            ask(input.as_bytes()).err(),
            Some(Refusal::WordUnknown.at(0, Layer::Word))
        );
    }
    Ok(())
}

#[test]
fn lines(rt: HostRuntime) -> Result<(), Fail> {
    let line = refused_line(rt.alloc(), Refusal::BytesFollow.at(15, Layer::File))?;
    assert_eq!(rt; line.as_str(), "refused 12 at 15 file\n");
    Ok(())
}
