//! Blocks that a writer would not have made, and what the reader says of them.
use crate::bytes::with_byte;
use block::{
    BLOCK_SIZE, Block, BlockFault, WriteFault, check_of, read_block, write_items, write_note,
};
use byte_fields::put_number;
use counts::{CountSummary, FrameCount};
use station::{Letter, Refusal};
use std::test::Fail;

// As in `figures`; no crate of both is for sample blocks and damaged ones.
fn written(frames: &[FrameCount]) -> Result<[u8; BLOCK_SIZE], Fail> {
    let mut block = [0u8; BLOCK_SIZE];
    write_items::<CountSummary>(frames, &mut block).map_err(Refusal::from)?;
    Ok(block)
}

// The block of three frame counts.
fn counts() -> Result<[u8; BLOCK_SIZE], Fail> {
    written(&[
        FrameCount::new(16_383)?,
        FrameCount::new(0)?,
        FrameCount::new(300)?,
    ])
}

// The block with one byte changed, and its check as the bytes then ask.
fn changed(block: [u8; BLOCK_SIZE], place: usize, byte: u8) -> [u8; BLOCK_SIZE] {
    mended(with_byte(block, place, byte))
}

// As in `figures` too.
fn mended(block: [u8; BLOCK_SIZE]) -> [u8; BLOCK_SIZE] {
    put_number(block, 508..BLOCK_SIZE, u64::from(check_of(&block)))
}

fn fault(bytes: &[u8]) -> Option<BlockFault> {
    read_block(bytes).err()
}

// The block whose one record is the count 1 has the check 83.
#[test]
fn the_check_of_one_count(rt: HostRuntime) -> Result<(), Fail> {
    let block = written(&[FrameCount::new(1)?])?;
    assert_eq!(rt; check_of(&block), 83);
    Ok(())
}

#[test]
fn three_counts_read_back(rt: HostRuntime) -> Result<(), Fail> {
    let block = counts()?;
    let Ok(Block::Data { letter, records }) = read_block(&block) else {
        return Err(Fail::new("no block of records"));
    };
    assert_eq!(rt; letter, Letter::C);
    assert_eq!(rt; records.len(), 48);
    assert!(rt; records[..2] == [255, 63] && records[32..34] == [44, 1]);
    Ok(())
}

#[test]
fn wrong_lengths_and_checks(rt: HostRuntime) -> Result<(), Fail> {
    let block = counts()?;
    assert_eq!(rt; fault(&block), None);
    assert_eq!(rt; fault(&[]), Some(BlockFault::Length(0)));
    assert_eq!(rt; fault(&block[0..511]), Some(BlockFault::Length(511)));
    let mut bytes = block;
    bytes[508] ^= 1;
    assert_eq!(rt; fault(&bytes), Some(BlockFault::Check));
    let mut bytes = block;
    bytes[0] = 0;
    assert_eq!(rt; fault(&bytes), Some(BlockFault::Check));
    assert_eq!(rt; fault(&bytes[1..512]), Some(BlockFault::Length(511)));
    Ok(())
}

#[test]
fn layout_at_every_part(rt: HostRuntime) -> Result<(), Fail> {
    let block = counts()?;
    let table = [
        (0, b'X', 0),
        (0, 0, 0),
        (1, 32, 1),
        (1, 255, 1),
        (2, 1, 2),
        (3, 1, 2),
        (4, 1, 4),
        (11, 255, 11),
        (60, 1, 60),
        (507, 1, 507),
        (1, 2, 44),
    ];
    for (place, byte, lowest) in table {
        assert_eq!(rt;
            fault(&changed(block, place, byte)),
            Some(BlockFault::Layout(lowest))
        );
    }
    let several = changed(changed(changed(block, 507, 1), 11, 1), 2, 1);
    assert_eq!(rt; fault(&several), Some(BlockFault::Layout(2)));
    assert_eq!(rt;
        fault(&changed(several, 0, b'N')),
        Some(BlockFault::Layout(1))
    );
    Ok(())
}

#[test]
fn notes(rt: HostRuntime) -> Result<(), Fail> {
    let mut block = [0u8; BLOCK_SIZE];
    assert_eq!(rt; write_note(b"hello", &mut block), Ok(()));
    let Ok(Block::Note(text)) = read_block(&block) else {
        return Err(Fail::new("no note"));
    };
    assert!(rt; text == b"hello".as_slice());
    assert_eq!(rt; fault(&changed(block, 1, 1)), Some(BlockFault::Layout(1)));
    assert_eq!(rt; fault(&changed(block, 3, 2)), Some(BlockFault::Layout(2)));
    assert_eq!(rt; fault(&changed(block, 2, 4)), Some(BlockFault::Layout(16)));
    assert_eq!(rt; fault(&changed(block, 17, 1)), Some(BlockFault::Layout(17)));
    Ok(())
}

#[test]
fn writers_refuse(rt: HostRuntime) -> Result<(), Fail> {
    let text = [7u8; 497];
    let mut short = [9u8; 511];
    assert_eq!(rt; write_note(&text, &mut short), Err(WriteFault::Memory(511)));
    assert!(rt; short == [9; 511]);
    let mut memory = [9u8; 520];
    assert_eq!(rt; write_note(&text, &mut memory), Err(WriteFault::Text));
    assert!(rt; memory == [9; 520]);
    let frames = [FrameCount::new(5)?; 32];
    assert_eq!(rt;
        write_items::<CountSummary>(&frames, &mut memory),
        Err(WriteFault::Items)
    );
    assert_eq!(rt;
        write_items::<CountSummary>(&frames[0..31], &mut memory),
        Ok(())
    );
    assert!(rt; memory[1] == 31 && memory[492] == 5 && memory[512..] == [9; 8]);
    assert_eq!(rt; fault(&memory[0..512]), None);
    Ok(())
}

// The number and place of a reader's and of a writer's fault. A trait with `place` for the two would be no plainer.
fn of_reader(fault: BlockFault) -> (u8, usize) {
    (Refusal::from(fault).number(), fault.place())
}

fn of_writer(fault: WriteFault) -> (u8, usize) {
    (Refusal::from(fault).number(), fault.place())
}

#[test]
fn numbers_and_places(rt: HostRuntime) {
    let table = [
        (of_reader(BlockFault::Length(3)), (7, 3)),
        (of_reader(BlockFault::Check), (8, 508)),
        (of_reader(BlockFault::Layout(4)), (9, 4)),
        (of_writer(WriteFault::Memory(0)), (11, 0)),
        (of_writer(WriteFault::Items), (9, 1)),
        (of_writer(WriteFault::Text), (9, 2)),
    ];
    for (said, wanted) in table {
        assert_eq!(rt; said, wanted);
    }
}
