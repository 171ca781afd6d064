// Tests of a block, filled by a copy and by an exchange.
use ring_blocks::{Block, Mark};
use std::test::Fail;

#[test]
fn a_block_is_filled_again_and_again(rt: HostRuntime) -> Result<(), Fail> {
    let mut block = Block::open(rt.alloc(), 4)?;
    let mut into = [9u8; 5];
    assert!(rt; block.used() == 0);
    let fills: [(&[u8], Mark, [u8; 5]); 4] = [
        (b"abcd", Mark::More, *b"abcd\x09"),
        (b"xy", Mark::End, *b"xycd\x09"),
        (b"", Mark::Cut, *b"xycd\x09"),
        (b"123", Mark::More, *b"123d\x09"),
    ];
    for (bytes, mark, after) in fills {
        assert!(rt; bytes.len() <= 4);
        block.fill(bytes, mark);
        assert!(rt; block.used() as usize == bytes.len() && block.mark() == mark);
        assert!(rt; block.copy_to(&mut into) as usize == bytes.len());
        assert!(rt; into == after);
    }
    Ok(())
}

#[test]
fn a_block_and_a_space_change_places(rt: HostRuntime) -> Result<(), Fail> {
    let mut block = Block::open(rt.alloc(), 4)?;
    let mut space = vec![in rt.alloc(); b'a'; 4]?;
    let mut into = [9u8; 4];
    assert!(rt; space.len() == 4);
    block.exchange(&mut space, 3, Mark::End);
    assert!(rt; block.used() == 3 && block.mark() == Mark::End);
    assert!(rt; block.copy_to(&mut into) == 3 && into == *b"aaa\x09");
    assert!(rt; space.as_slice() == [0; 4].as_slice());
    Ok(())
}
