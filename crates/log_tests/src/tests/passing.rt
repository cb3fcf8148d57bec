//! Analysis of a log that is read in pieces, or record after record: what it finds is what
//! `analyse` finds in the whole log.

use super::analysed::ROWS;
use super::records::{log_of, put};
use analysis::{
    CheckpointScan, FreshScan, FreshStretch, PageScan, StretchScan, TableScan, Tables,
    TransactionScan, analyse,
};
use checks::check;
use page::Fault;
use std::alloc::Global;
use std::collections::BTreeMap;
use std::test::Fail;
use wal::{Entry, Log, Record, State, based_header, read_log};

/// Both tables, as maps.
type Maps = (BTreeMap<u32, Entry>, BTreeMap<u32, u64>);

/// The bytes of the records of a log from after one LSN up to another.
fn piece_of(alloc: Global, log: &Log, from: u64, upto: u64) -> Result<Vec<u8>, Fault> {
    let mut bytes = Vec::from_slice(alloc, &based_header(from))?;
    for before in from..upto {
        let lsn = before + 1;
        if let Some(view) = log.get(lsn) {
            put(&mut bytes, lsn, &view.to_record(alloc)?)?;
        }
    }
    Ok(bytes)
}

/// Gives each record of a piece to the scan for the tables of a checkpoint.
fn take_each(scan: &mut CheckpointScan, piece: &Log) -> Result<(), Fault> {
    for lsn in piece.base()..piece.last() {
        scan.take(lsn, &piece.after(lsn))?;
    }
    Ok(())
}

/// The tables of the checkpoint, for a log that is read in these pieces.
fn checkpoint_by(alloc: Global, pieces: &[Vec<u8>], master: u64) -> Result<Maps, Fault> {
    let mut scan = CheckpointScan::new(alloc, master);
    for bytes in pieces {
        let (piece, _) = read_log(alloc, bytes)?;
        take_each(&mut scan, &piece)?;
    }
    scan.finish()
}

/// Gives each record of a piece to the scan for both tables.
fn note_each(scan: &mut TableScan, piece: &Log, master: u64) -> Result<(), Fault> {
    for lsn in piece.base()..piece.last() {
        scan.take(lsn, piece.glance_after(lsn), master)?;
    }
    Ok(())
}

/// The tables after a log that is read in these pieces, by the scan for both of them.
fn both_by(alloc: Global, log: &Log, pieces: &[Vec<u8>], master: u64) -> Result<Tables, Fault> {
    let (transactions, dirty) = checkpoint_by(alloc, pieces, master)?;
    let mut scan = TableScan::begin(alloc, transactions, dirty)?;
    for bytes in pieces {
        let (piece, _) = read_log(alloc, bytes)?;
        note_each(&mut scan, &piece, master)?;
    }
    scan.finish(log.base())
}

/// The tables after a log that is read in these pieces, each by its own scan.
fn tables_by(alloc: Global, pieces: &[Vec<u8>], master: u64) -> Result<Maps, Fault> {
    let (transactions, dirty) = checkpoint_by(alloc, pieces, master)?;
    let mut transactions = TransactionScan::begin(transactions);
    let mut pages = PageScan::begin(alloc, dirty)?;
    for bytes in pieces {
        let (piece, _) = read_log(alloc, bytes)?;
        transactions.pass(&piece, master)?;
        pages.pass(&piece, master)?;
    }
    Ok((transactions.finish()?, pages.finish()))
}

/// Gives each record of a piece to the scan without a checkpoint.
fn find_each(scan: &mut FreshScan, piece: &Log) -> Result<(), Fault> {
    for lsn in piece.base()..piece.last() {
        scan.take(lsn, piece.glance_after(lsn))?;
    }
    Ok(())
}

/// The tables without dirty pages, after a log without a checkpoint that is read in these pieces.
fn fresh_by(alloc: Global, pieces: &[Vec<u8>]) -> Result<Tables, Fault> {
    let mut scan = FreshScan::begin(alloc);
    for bytes in pieces {
        let (piece, _) = read_log(alloc, bytes)?;
        find_each(&mut scan, &piece)?;
    }
    scan.finish(alloc)
}

/// Gives each record of a piece to the scan of a stretch.
fn tell_each(scan: &mut StretchScan, piece: &Log) -> Result<(), Fault> {
    for lsn in piece.base()..piece.last() {
        scan.note(lsn + 1, piece.glance_after(lsn))?;
    }
    Ok(())
}

/// The transaction table after a log without a checkpoint. Each of these pieces is scanned by itself,
/// and then joined to the table before it.
fn joined_by(alloc: Global, pieces: &[Vec<u8>]) -> Result<BTreeMap<u32, Entry>, Fault> {
    let mut transactions = TransactionScan::begin(BTreeMap::new(alloc));
    for bytes in pieces {
        let (piece, _) = read_log(alloc, bytes)?;
        let mut stretch = StretchScan::begin(alloc);
        tell_each(&mut stretch, &piece)?;
        transactions.join(stretch)?;
    }
    transactions.finish()
}

/// Gives each record of a piece to the scan of a stretch without a checkpoint.
fn find_each_apart(stretch: &mut FreshStretch, piece: &Log) -> Result<(), Fault> {
    for lsn in piece.base()..piece.last() {
        stretch.take(lsn, piece.glance_after(lsn))?;
    }
    Ok(())
}

/// The tables without dirty pages, after a log without a checkpoint. Each of these pieces is scanned
/// by itself, and then joined to what was found before it.
fn fresh_joined_by(alloc: Global, pieces: &[Vec<u8>]) -> Result<Tables, Fault> {
    let mut scan = FreshScan::begin(alloc);
    for bytes in pieces {
        let (piece, _) = read_log(alloc, bytes)?;
        let mut stretch = FreshStretch::begin(alloc);
        find_each_apart(&mut stretch, &piece)?;
        scan.join(stretch)?;
    }
    scan.finish(alloc)
}

/// Whether two transaction tables are the same.
fn are_same_transactions(a: &BTreeMap<u32, Entry>, b: &BTreeMap<u32, Entry>) -> bool {
    for (tx, entry) in a {
        if b.get(tx) != Some(entry) {
            return false;
        }
    }
    a.len() == b.len()
}

/// Whether two dirty page tables are the same.
fn are_same_pages(a: &BTreeMap<u32, u64>, b: &BTreeMap<u32, u64>) -> bool {
    for (page, rec_lsn) in a {
        if b.get(page) != Some(rec_lsn) {
            return false;
        }
    }
    a.len() == b.len()
}

/// Whether the scan for both tables finds in these pieces what analysis of the log does.
fn are_both_same(alloc: Global, log: &Log, pieces: &[Vec<u8>], master: u64) -> bool {
    match (
        analyse(alloc, log, master),
        both_by(alloc, log, pieces, master),
    ) {
        (Ok(whole), Ok(tables)) => {
            are_same_transactions(&whole.transactions, &tables.transactions)
                && are_same_pages(&whole.dirty, &tables.dirty)
                && whole.redo_lsn == tables.redo_lsn
        }
        (Err(whole), Err(fault)) => whole == fault,
        (_, _) => false,
    }
}

/// Whether the scans for one table do.
fn is_each_same(alloc: Global, log: &Log, pieces: &[Vec<u8>], master: u64) -> bool {
    match (
        analyse(alloc, log, master),
        tables_by(alloc, pieces, master),
    ) {
        (Ok(whole), Ok((transactions, dirty))) => {
            are_same_transactions(&whole.transactions, &transactions)
                && are_same_pages(&whole.dirty, &dirty)
        }
        (Err(whole), Err(fault)) => whole == fault,
        (_, _) => false,
    }
}

/// Whether tables that were found without a checkpoint are these, without the dirty pages.
fn is_fresh(whole: &Tables, fresh: &Tables) -> bool {
    are_same_transactions(&whole.transactions, &fresh.transactions)
        && whole.redo_lsn == fresh.redo_lsn
        && fresh.dirty.is_empty()
}

/// Whether the scan without a checkpoint and the joined stretches find what analysis without a
/// checkpoint does.
fn are_fresh_same(alloc: Global, log: &Log, pieces: &[Vec<u8>]) -> bool {
    let Ok(whole) = analyse(alloc, log, 0) else {
        return false;
    };
    let (Ok(fresh), Ok(joined)) = (fresh_by(alloc, pieces), fresh_joined_by(alloc, pieces)) else {
        return false;
    };
    let Ok(transactions) = joined_by(alloc, pieces) else {
        return false;
    };
    is_fresh(&whole, &fresh)
        && is_fresh(&whole, &joined)
        && are_same_transactions(&whole.transactions, &transactions)
}

/// Whether analysis of these pieces finds what analysis of the log does: the tables, or the fault.
fn is_same(alloc: Global, log: &Log, pieces: &[Vec<u8>], master: u64) -> bool {
    is_each_same(alloc, log, pieces, master)
        && are_both_same(alloc, log, pieces, master)
        && are_fresh_same(alloc, log, pieces)
}

/// Whether it does so if the log is cut after this LSN.
fn is_same_cut(alloc: Global, log: &Log, cut: u64, master: u64) -> Result<bool, Fault> {
    let mut pieces = Vec::new(alloc);
    pieces.push(piece_of(alloc, log, log.base(), cut)?)?;
    pieces.push(piece_of(alloc, log, cut, log.last())?)?;
    Ok(is_same(alloc, log, &pieces, master))
}

/// Whether it does so if each record is a piece by itself, and pieces without one come between.
fn is_same_by_record(alloc: Global, log: &Log, master: u64) -> Result<bool, Fault> {
    let mut pieces = Vec::new(alloc);
    for before in log.base()..log.last() {
        pieces.push(piece_of(alloc, log, before, before)?)?;
        pieces.push(piece_of(alloc, log, before, before + 1)?)?;
    }
    Ok(is_same(alloc, log, &pieces, master))
}

/// Whether it does so however the log is cut.
fn is_same_in_pieces(alloc: Global, log: &Log, master: u64) -> Result<bool, Fault> {
    for cut in log.base()..log.last() {
        if !is_same_cut(alloc, log, cut, master)? {
            return Ok(false);
        }
    }
    is_same_by_record(alloc, log, master)
}

#[test]
fn finds_the_tables_of_rows_in_pieces(rt: HostRuntime) -> Result<(), Fail> {
    for row in &ROWS {
        let (log, _) = read_log(rt.alloc(), row.log)?;
        check(is_same_in_pieces(rt.alloc(), &log, row.master)?, row.name)?;
    }
    Ok(())
}

fn update(tx: u32, prev: u64, page: u32) -> Record {
    Record::Update {
        tx,
        prev,
        page,
        slot: 0,
        before: None,
        after: None,
    }
}

/// The end of the checkpoint at `begin` that lists this transaction with its record at `last`, and
/// this page from there on.
fn checkpoint_end(
    alloc: Global,
    begin: u64,
    tx: u32,
    page: u32,
    last: u64,
) -> Result<Record, Fault> {
    let mut transactions = Vec::new(alloc);
    let entry = Entry {
        state: State::Active,
        last,
        undo_next: last,
    };
    transactions.push((tx, entry))?;
    let mut dirty = Vec::new(alloc);
    dirty.push((page, last))?;
    Ok(Record::CheckpointEnd {
        begin,
        transactions,
        dirty,
    })
}

/// The bytes of a log of 14 records. Transactions 1, 257 and 513 are kept at one place; page 5000
/// is past all pages. Two ends name the checkpoint at 4, with different tables, and one names the
/// begin record at 10, which follows it.
fn long_row(alloc: Global) -> Result<Vec<u8>, Fault> {
    let first = checkpoint_end(alloc, 4, 1, 7, 1)?;
    let second = checkpoint_end(alloc, 4, 257, 8, 2)?;
    let early = checkpoint_end(alloc, 10, 9, 9, 3)?;
    log_of(
        alloc,
        &[
            &update(1, 0, 7),
            &update(257, 0, 8),
            &update(513, 0, 5000),
            &Record::CheckpointBegin,
            &update(1, 1, 8),
            &first,
            &update(257, 2, 7),
            &second,
            &early,
            &Record::CheckpointBegin,
            &Record::Compensation {
                tx: 257,
                prev: 7,
                page: 7,
                slot: 0,
                undo_next: 2,
                image: None,
            },
            &Record::Commit { tx: 1, prev: 5 },
            &Record::Abort { tx: 513, prev: 3 },
            &update(1, 12, 9),
        ],
    )
}

#[test]
fn finds_the_tables_of_a_long_row_in_pieces(rt: HostRuntime) -> Result<(), Fail> {
    let bytes = long_row(rt.alloc())?;
    let (log, _) = read_log(rt.alloc(), &bytes)?;
    check(log.len() == 14, "14 records")?;
    for master in 0..17 {
        let is_same = is_same_in_pieces(rt.alloc(), &log, master)?;
        check(is_same, "pieces from a master on")?;
    }
    Ok(())
}

/// Whether the base of the log that is read in these pieces, at master 4, is that of the first end.
fn is_first_end(alloc: Global, pieces: &[Vec<u8>]) -> Result<bool, Fault> {
    let (transactions, dirty) = checkpoint_by(alloc, pieces, 4)?;
    let entry = Entry {
        state: State::Active,
        last: 1,
        undo_next: 1,
    };
    Ok(
        transactions.len() == 1
            && transactions.get(&1) == Some(&entry)
            && dirty.len() == 1
            && dirty.get(&7) == Some(&1),
    )
}

#[test]
fn takes_the_first_end_where_pieces_part_it_from_its_begin(rt: HostRuntime) -> Result<(), Fail> {
    let alloc = rt.alloc();
    let bytes = long_row(alloc)?;
    let (log, _) = read_log(alloc, &bytes)?;
    let mut pieces = Vec::new(alloc);
    pieces.push(piece_of(alloc, &log, 0, 4)?)?;
    pieces.push(piece_of(alloc, &log, 4, 7)?)?;
    pieces.push(piece_of(alloc, &log, 7, 14)?)?;
    check(is_first_end(alloc, &pieces)?, "the first end")
}
