use crate::{answer_all, decoded};
use std::test::Fail;

// The answer to an input is how many bytes it has.
#[test]
fn answers_in_order(rt: HostRuntime) -> Result<(), Fail> {
    let heap = rt.alloc();
    let mut told = Vec::new(heap);
    let lines: &[u8] = b"0aFF\n\n3C\n";
    answer_all(heap, lines, &mut told, |heap, input| {
        let len = input.len();
        format!(in heap; "{len};")
    })?;
    assert_eq!(rt; told.as_slice(), b"2;0;1;".as_slice());
    Ok(())
}

#[test]
fn no_hexadecimal(rt: HostRuntime) -> Result<(), Fail> {
    let heap = rt.alloc();
    for line in ["0", "0g", "0 "] {
        let mut told = Vec::new(heap);
        let answered = answer_all(heap, line.as_bytes(), &mut told, |heap, _| {
            format!(in heap; "answer")
        });
        let Err(refused) = answered else {
            return Err(Fail::new("an answer"));
        };
        let text = refused.to_string(heap)?;
        assert_eq!(rt; text.as_str(), "a line is not in hexadecimal");
    }
    Ok(())
}

#[test]
fn decoding(rt: HostRuntime) -> Result<(), Fail> {
    let heap = rt.alloc();
    let bytes = decoded(heap, b"0aFF")?;
    assert_eq!(rt; bytes.as_deref(), Some(b"\x0a\xff".as_slice()));
    assert!(rt; decoded(heap, b"0aF")?.is_none());
    Ok(())
}
