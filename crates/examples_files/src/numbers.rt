use buffer_io::{word_bytes, words};
use std::test::Fail;
use wg_num::Word;

#[test]
fn numbers_go_to_bytes_and_back(rt: HostRuntime) -> Result<(), Fail> {
    let read = words(rt.alloc(), &[1, 0, 0, 0, 2])?;
    assert_eq!(rt; read.as_slice(), [1u32].as_slice());
    let bytes = word_bytes(rt.alloc(), &read)?;
    assert_eq!(rt; bytes.as_slice(), [1u8, 0, 0, 0].as_slice());
    Ok(())
}

#[test]
fn a_copied_word_has_the_same_bytes(rt: HostRuntime) -> Result<(), Fail> {
    let word = Word::new(rt.alloc(), b"a.bin")?;
    let copy = word.copy(rt.alloc())?;
    assert_eq!(rt; copy.bytes(), b"a.bin".as_slice());
    Ok(())
}
