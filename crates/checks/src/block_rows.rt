// The rows of blocks. What is written of one: code, place, used.
use records::{Answer, MOST_RECORDS, RECORD_BYTES};
use std::io;

// The room for records: four more than a block may have.
const RECORD_ROOM: usize = MOST_RECORDS + 4;

const ROOM: usize = RECORD_BYTES * RECORD_ROOM;

pub(crate) fn block_row(out: &impl Print, row: &[u8]) -> io::Result<()> {
    let mut block = [0; tables::ROOM];
    let at = tables::next_word(row, 0);
    let n = tables::hex_bytes(&row[at..], &mut block);
    put_answer(out, records::check_block(&block[..n]))
}

pub(crate) fn events_row(out: &impl Print, row: &[u8]) -> io::Result<()> {
    let n_at = tables::next_word(row, 0);
    let extra_at = tables::next_word(row, n_at);
    let place_at = tables::next_word(row, extra_at);
    let byte_at = tables::next_word(row, place_at);
    let n = tables::number(row, n_at);
    let mut block = [0; ROOM];
    set_times(&mut block, n);
    if let Some(byte) = block.get_mut(tables::number(row, place_at)) {
        *byte = (tables::number(row, byte_at) % 256) as u8;
    }
    let length = (RECORD_BYTES * n + tables::number(row, extra_at)).min(ROOM);
    put_answer(out, records::check_block(&block[..length]))
}

// Gives record i the time i + 1, as far as there is room.
fn set_times(block: &mut [u8; ROOM], n: usize) {
    for i in 0..n.min(RECORD_ROOM) {
        let at = RECORD_BYTES * i + 5;
        block[at..at + 2].copy_from_slice(&(i as u16 + 1).to_be_bytes());
    }
}

fn put_answer(out: &impl Print, answer: Answer) -> io::Result<()> {
    print!(out; "{} {} {}", answer.code, answer.place, answer.used)
}
