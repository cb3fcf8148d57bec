//! What a restart reports.

ghost use Rattle.std.specs.Prelude.{◌≡◌, ◌++◌, IfOk, OnOk, IsOkUnless};
ghost use Rattle.page.specs.declared.fault.Fault.TheVariants.{NoResource};
ghost use Rattle.recovery.specs.Text.{line, number_lines, doubt_lines, report_lines};

use itoa::Buffer;
use page::Fault;
use std::alloc::{AllocError, Global};
use std::marker::Model;

/// What a restart found and did. Contracts see it as the record of these numbers.
#[derive(Debug, Drop)]
pub struct Report {
    /// Whole records of the log that was read.
    pub records: u64,
    /// Bytes of its torn tail, which is dropped.
    pub torn: u64,
    /// The LSN from which redo looked at records, 0 if it looked at none.
    pub redo_from: u64,
    /// Records that redo applied.
    pub redone: u64,
    /// Transactions that were rolled back: those that the log leaves unfinished, except the ones in
    /// doubt.
    pub losers: u64,
    /// Compensation records (CLRs) appended.
    pub compensated: u64,
    /// End records appended.
    pub ended: u64,
    /// Pages of the store.
    pub pages: u64,
    /// The transactions in doubt, in ascending order of number.
    pub in_doubt: Vec<u32>,
}

impl Model for Report {
    ghost use Rattle.recovery.specs.Text.{ReportContent};

    ghost Value = { ReportContent };

    ghost view = { λ r. record { records = r.records; torn = r.torn; redo_from = r.redo_from; redone = r.redone; losers = r.losers; compensated = r.compensated; ended = r.ended; pages = r.pages; in_doubt = r.in_doubt.items } };
}

/// Appends a line: a name, a blank and a decimal number.
fn put_line(text: &mut Vec<u8>, name: &str, number: u64) -> Result<(), AllocError>
    ensures { OnOk result (text.new.items ≡ text.old.items ++ line name.now number) }
{
    text.extend_from_slice(name.as_bytes())?;
    text.push(b' ')?;
    text.extend_from_slice(Buffer::new().format(number).as_bytes())?;
    text.push(b'\n')?;
    Ok(())
}

/// Appends the transactions in doubt: how many, and a line for each. If there are none, it appends
/// no line.
fn put_in_doubt(text: &mut Vec<u8>, numbers: &[u32]) -> Result<(), AllocError>
    ensures { OnOk result (text.new.items ≡ text.old.items ++ doubt_lines numbers.now) }
{
    if numbers.is_empty() {
        return Ok(());
    }
    put_line(text, "in-doubt", numbers.len() as u64)?;
    for number in numbers {
        put_line(text, "transaction", *number as u64)?;
    }
    Ok(())
}

/// The eight lines of a report's numbers.
fn numbers_text(alloc: Global, report: &Report) -> Result<Vec<u8>, AllocError>
    ensures { IfOk result (λ text. text.items ≡ number_lines report.now) }
{
    let mut text = Vec::new(alloc);
    put_line(&mut text, "records", report.records)?;
    put_line(&mut text, "torn", report.torn)?;
    put_line(&mut text, "redo-from", report.redo_from)?;
    put_line(&mut text, "redone", report.redone)?;
    put_line(&mut text, "losers", report.losers)?;
    put_line(&mut text, "compensated", report.compensated)?;
    put_line(&mut text, "ended", report.ended)?;
    put_line(&mut text, "pages", report.pages)?;
    Ok(text)
}

/// The eight lines `name number` of a report, each ended by a line feed: records, torn, redo-from,
/// redone, losers, compensated, ended, pages. If there are transactions in doubt, a line `in-doubt`
/// follows with their count, and a line `transaction` with the number of each. The only error is
/// [`Fault::NoResource`], if memory was refused.
pub fn report_text(alloc: Global, report: &Report) -> Result<Vec<u8>, Fault>
    ensures text { IfOk result (λ text. text.items ≡ report_lines report.now) }
    ensures err { IsOkUnless result NoResource }
{
    let mut text = numbers_text(alloc, report)?;
    put_in_doubt(&mut text, &report.in_doubt)?;
    Ok(text)
}
