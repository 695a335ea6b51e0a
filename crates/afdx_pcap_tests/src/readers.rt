//! Readers of bytes, and what they answer.

use afdx_pcap::{PcapFault, Reader, Record, read_all, write_all};
use std::alloc::Global;

/// A call of a reader, and what it is to answer.
pub(crate) enum Call {
    /// A piece for the reader, which is open, and the fault that it answers.
    Feed(&'static [u8], Option<PcapFault>),
    /// Whether the reader gives a record, or its fault.
    Next(Result<bool, PcapFault>),
}

/// Takes the next record from a reader, and returns whether there was one, or the fault.
pub(crate) fn has_next(reader: &mut Reader<'_, Global>) -> Result<bool, PcapFault> {
    Ok(reader.next()?.is_some())
}

/// Returns whether a reader is open and answers a piece with this fault, or with none.
fn takes(reader: &mut Reader<'_, Global>, piece: &[u8], fault: &Option<PcapFault>) -> bool {
    !reader.is_closed() && reader.feed(piece).err() == *fault
}

/// Returns whether a reader answers a call as it should.
fn answers(reader: &mut Reader<'_, Global>, call: &Call) -> bool {
    match call {
        Call::Feed(piece, fault) => takes(reader, piece, fault),
        Call::Next(answer) => has_next(reader) == *answer,
    }
}

/// Returns whether a new reader answers these calls as it should.
pub(crate) fn answers_all(alloc: Global, calls: &[Call]) -> bool {
    let mut reader = Reader::new(alloc);
    for call in calls {
        if !answers(&mut reader, call) {
            return false;
        }
    }
    true
}

/// Returns whether a reader that is fed byte by byte gives nothing before the last byte, and a record after it.
fn gives_at_the_last_byte(reader: &mut Reader<'_, Global>, bytes: &[u8]) -> bool {
    for (place, byte) in bytes.iter().enumerate() {
        let is_last = place.saturating_add(1) == bytes.len();
        if !takes(reader, &[*byte], &None) || has_next(reader) != Ok(is_last) {
            return false;
        }
    }
    true
}

/// Returns whether a new reader that is fed byte by byte gives a record after the last byte, and nothing more once it is closed.
pub(crate) fn gives_one_record(alloc: Global, bytes: &[u8]) -> bool {
    let mut reader = Reader::new(alloc);
    let is_given = gives_at_the_last_byte(&mut reader, bytes);
    reader.close();
    is_given && reader.is_closed() && has_next(&mut reader) == Ok(false)
}

/// Returns whether a new reader that was fed these bytes answers this fault while it is open.
pub(crate) fn is_early_fault(alloc: Global, bytes: &[u8], fault: &PcapFault) -> bool {
    let mut reader = Reader::new(alloc);
    takes(&mut reader, bytes, &None) && has_next(&mut reader) == Err(*fault)
}

/// Returns the number of records of a whole capture, or the fault.
pub(crate) fn read_whole(alloc: Global, bytes: &[u8]) -> Result<usize, PcapFault> {
    Ok(read_all(alloc, bytes)?.len())
}

fn take_records<'a>(
    reader: &mut Reader<'a, Global>,
    records: &mut Vec<Record<'a, Global>>,
) -> Result<(), PcapFault> {
    for _ in 0..u16::MAX {
        let Some(record) = reader.next()? else {
            return Ok(());
        };
        records.push(record)?;
    }
    Ok(())
}

/// Feeds a reader a piece if it is open, and takes the records that are there then.
fn take_piece(
    reader: &mut Reader<'static, Global>,
    piece: &[u8],
    records: &mut Vec<Record<'static, Global>>,
) -> Result<(), PcapFault> {
    if !reader.is_closed() {
        reader.feed(piece)?;
    }
    take_records(reader, records)
}

/// Reads the records of these pieces, each as soon as it is there, and then ends the input.
fn read_pieces(alloc: Global, pieces: &[&[u8]]) -> Result<Vec<Record<'static, Global>>, PcapFault> {
    let mut records = Vec::new(alloc);
    let mut reader = Reader::new(alloc);
    for piece in pieces {
        take_piece(&mut reader, piece, &mut records)?;
    }
    reader.close();
    take_records(&mut reader, &mut records)?;
    Ok(records)
}

/// Returns the number of records that are read from one piece, or the fault.
pub(crate) fn read_piece(alloc: Global, bytes: &[u8]) -> Result<usize, PcapFault> {
    Ok(read_pieces(alloc, &[bytes])?.len())
}

/// Returns whether these records are written as this text.
fn are_written(alloc: Global, records: &[Record<Global>], text: &[u8]) -> Result<bool, PcapFault> {
    Ok(write_all(alloc, records)?.as_slice() == text)
}

/// Returns whether the records of a capture are written as this text.
pub(crate) fn is_written_as(alloc: Global, bytes: &[u8], text: &[u8]) -> Result<bool, PcapFault> {
    let records = read_all(alloc, bytes)?;
    are_written(alloc, &records, text)
}

/// Returns whether the records of these pieces are written as this text.
pub(crate) fn are_written_as(
    alloc: Global,
    pieces: &[&[u8]],
    text: &[u8],
) -> Result<bool, PcapFault> {
    let records = read_pieces(alloc, pieces)?;
    are_written(alloc, &records, text)
}
