//! Other lawful logs and stores, made from such in place: all values are others, and all transactions
//! have other numbers. Values have at least eight bytes, of which these change.

use crate::chance::Chance;
use crate::shapes::Pair;

/// What is changed.
#[derive(Clone, Copy)]
pub struct Change {
    /// The first eight bytes of a value are taken exclusive-or with this.
    pub mask: u64,
    /// The number of each transaction is multiplied by this, which is odd, and then rises by `step`.
    pub factor: u32,
    pub step: u32,
}

impl Change {
    /// Other values by chance, and the next numbers.
    pub fn by(chance: &mut Chance) -> Change {
        Change {
            mask: chance.draw(),
            factor: 1,
            step: 1,
        }
    }

    /// Other values, which stay letters if they are such, and the next numbers.
    pub fn of_letters() -> Change {
        Change {
            mask: 0x0101_0101_0101_0101,
            factor: 1,
            step: 1,
        }
    }

    /// The next numbers, and the same values.
    pub fn of_numbers() -> Change {
        Change {
            mask: 0,
            factor: 1,
            step: 1,
        }
    }

    /// Numbers all over those of 32 bits, in another order: not for a log with a checkpoint.
    pub fn scattered(chance: &mut Chance) -> Change {
        Change {
            mask: chance.draw(),
            factor: 0x9e37_79b1,
            step: 0,
        }
    }

    /// Gives the transaction whose number stands in front another one.
    #[inline]
    fn change_number(&self, bytes: &mut [u8]) {
        if let Some(number) = bytes.first_chunk_mut::<4>() {
            let changed = u32::from_be_bytes(*number)
                .wrapping_mul(self.factor)
                .wrapping_add(self.step);
            *number = changed.to_be_bytes();
        }
    }

    /// Changes the bytes of a value that stand in front.
    #[inline]
    fn change_value(&self, bytes: &mut [u8]) {
        if let Some(value) = bytes.first_chunk_mut::<8>() {
            *value = (u64::from_le_bytes(*value) ^ self.mask).to_le_bytes();
        }
    }
}

/// Changes what stands behind these bytes.
#[inline]
fn behind(bytes: &mut [u8], count: usize) -> &mut [u8] {
    match bytes.split_at_mut_checked(count) {
        Some((_, rest)) => rest,
        None => &mut [],
    }
}

/// Changes the image in front, and gives how many bytes it takes.
#[inline]
fn change_image(bytes: &mut [u8], change: &Change) -> usize {
    let length = match bytes.first() {
        Some(length) => *length,
        None => 255,
    };
    if length == 255 {
        return 1;
    }
    change.change_value(behind(bytes, 1));
    1 + length as usize
}

/// Changes the transactions of a checkpoint's table.
fn change_table(table: &mut [u8], change: &Change) {
    let Some((count, entries)) = table.split_first_chunk_mut::<4>() else {
        return;
    };
    let count = u32::from_be_bytes(*count) as usize;
    for entry in entries.chunks_exact_mut(21).take(count) {
        change.change_number(entry);
    }
}

/// Changes the body of a record.
#[inline]
fn change_body(body: &mut [u8], change: &Change) {
    match body.first() {
        Some(1) => {
            change.change_number(behind(body, 9));
            let images = behind(body, 26);
            let count = change_image(images, change);
            change_image(behind(images, count), change);
        }
        Some(2) => {
            change.change_number(behind(body, 9));
            change_image(behind(body, 34), change);
        }
        Some(7) => change_table(behind(body, 17), change),
        Some(6) | None => {}
        Some(_) => change.change_number(behind(body, 9)),
    }
}

/// Changes a log.
fn change_log(log: &mut [u8], change: &Change) {
    let header = if log.get(7) == Some(&b'2') { 16 } else { 8 };
    let mut rest = behind(log, header);
    for _ in 0..u64::MAX {
        let Some((length, frame)) = rest.split_first_chunk_mut::<4>() else {
            return;
        };
        let Some((body, next)) = frame.split_at_mut_checked(u32::from_be_bytes(*length) as usize)
        else {
            return;
        };
        change_body(body, change);
        rest = next;
    }
}

/// Changes the image of a page. A value's length stands behind its offset in the directory.
fn change_page(page: &mut [u8], change: &Change) {
    let mut at = 80;
    for slot in 0..16 {
        let length = match page.get(19 + 4 * slot) {
            Some(length) => *length as usize,
            None => 0,
        };
        if length > 0 {
            change.change_value(behind(page, at));
            at = length.saturating_add(at);
        }
    }
}

/// Changes the pages of a store.
pub fn change_store(store: &mut [u8], change: &Change) {
    for page in behind(store, 24).chunks_exact_mut(1024) {
        change_page(page, change);
    }
}

/// Makes another pair of a lawful one.
pub fn change_pair(pair: &mut Pair, change: &Change) {
    change_log(&mut pair.log, change);
    if change.mask != 0 {
        change_store(&mut pair.store, change);
    }
}
