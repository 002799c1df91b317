use block::{BLOCK_SIZE, Block, check_of, read_block, record_at, write_items};
use byte_fields::put_number;
use counts::{CountSummary, FrameCount};
use station::{Recorded, Refusal};
use std::io;

// The block of one frame count.
fn written(count: u16) -> Result<[u8; BLOCK_SIZE], Refusal> {
    let mut block = [0u8; BLOCK_SIZE];
    let frames = [FrameCount::new(count)?];
    write_items::<CountSummary>(&frames, &mut block)?;
    Ok(block)
}

// The block with the check that its bytes ask for. The tests have the same: no crate of both is for damaging blocks.
fn mended(block: [u8; BLOCK_SIZE]) -> [u8; BLOCK_SIZE] {
    put_number(block, 508..BLOCK_SIZE, u64::from(check_of(&block)))
}

// One block of frame counts, written and read, and then damaged in three ways.
pub fn counts(rt: &HostRuntime) -> anyhow::Result<()> {
    let block = written(1)?;
    let check = check_of(&block);
    println!(rt; "  the count 1: check {check}")?;
    show(rt, "as written", &block)?;
    show(rt, "one byte short", &block[0..511])?;
    let mut damaged = block;
    damaged[14] = 1;
    show(rt, "byte 14 changed", &damaged)?;
    show(rt, "and the check mended", &mended(damaged))?;
    Ok(())
}

// The handle and a label in three functions that print; a struct of the two would be no plainer.
fn fault(
    rt: &HostRuntime,
    label: &str,
    what: &str,
    refusal: Refusal,
    place: usize,
) -> io::Result<()> {
    let number = refusal.number();
    println!(rt; "  {label}: {what} fault {number} at {place}")
}

// What some bytes read as.
fn show(rt: &HostRuntime, label: &str, bytes: &[u8]) -> io::Result<()> {
    match read_block(bytes) {
        Ok(Block::Data { letter: _, records }) => show_first(rt, label, records),
        Ok(Block::Note(text)) => {
            let length = text.len();
            println!(rt; "  {label}: a note of {length} bytes")
        }
        Err(why) => fault(rt, label, "block", Refusal::from(why), why.place()),
    }
}

// The first record of a block of counts.
fn show_first(rt: &HostRuntime, label: &str, records: &[u8]) -> io::Result<()> {
    let Some(record) = record_at(records, 0) else {
        return println!(rt; "  {label}: no records");
    };
    match CountSummary::read(record) {
        Ok(frame) => {
            let count = frame.count();
            println!(rt; "  {label}: the count {count}")
        }
        Err(why) => fault(rt, label, "record", Refusal::from(why), why.place()),
    }
}
