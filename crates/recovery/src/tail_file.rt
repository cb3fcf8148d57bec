//! The file of a tail: what a recovery in place keeps on the disk while it continues the log. With
//! it, a continuation that a power failure ended can be made again.

ghost use Rattle.std.specs.Prelude.{◌≡◌, ◌↔◌, ◌+◌, ◌-◌, ◌≤◌, drop, length, take, IfSome, IsTrue, OnOk, OnErr, is_some, true};
ghost use Rattle.std.specs.Int.{w64, from_be_bytes};
ghost use Rattle.device.specs.Failures.{Counts};
ghost use Rattle.recovery.specs.Devices.{AreOut};
ghost use Rattle.recovery.specs.TailFile.{sum_on, sum_of, IfTailFile, file_head, file_front, file_text};
ghost use Rattle.recovery.specs.Calls.{Began};

use device::{Failed, Sink, write_all};

/// The sum of no bytes.
pub const SUM_OF_NONE: u64 = 0xcbf2_9ce4_8422_2325;

/// The factor by which the sum is multiplied after each byte.
const PRIME: u64 = 0x0000_0100_0000_01b3;

/// How many bytes come before the frames.
const HEAD_BYTES: usize = 48;

/// How many bytes a number takes.
const NUMBER_BYTES: usize = 8;

/// How many bytes the end of a log has, by which the log is recognized.
pub const END_BYTES: usize = 4096;

/// The sum of some bytes followed by these (FNV-1a).
pub fn sum_on(sum: u64, bytes: &[u8]) -> u64
    ensures { result ≡ sum_on sum bytes.now }
{
    let mut sum = sum;
    for byte in bytes {
        sum = (sum ^ u64::from(*byte)).wrapping_mul(PRIME);
    }
    sum
}

/// The number at an offset in the head.
fn number_at(head: &[u8], offset: usize) -> u64
    requires { offset + NUMBER_BYTES ≤ length head.now }
    ensures { result ≡ from_be_bytes w64 (take NUMBER_BYTES (drop offset head.now)) }
{
    let mut number = [0; NUMBER_BYTES];
    number.copy_from_slice(&head[offset..offset + NUMBER_BYTES]);
    u64::from_be_bytes(number)
}

/// What the file of a tail holds.
#[derive(Clone, Copy)]
pub struct TailFile<'a> {
    /// How many bytes the log had when it was read.
    pub length: u64,
    /// How many of them are kept: all but those of the torn tail.
    pub kept: u64,
    /// The sum of the last [`END_BYTES`] that are kept, or of all if there are fewer: the log to
    /// which the tail belongs ends with them.
    pub end: u64,
    /// The sum of the bytes that are cut off: those of the torn tail.
    pub cut: u64,
    /// The frames that come after them.
    pub frames: &'a [u8],
}

impl<'a> TailFile<'a> {
    /// The bytes before the frames.
    #[tactic(auto, unfolding(crate::specs::TailFile::head_of))]
    fn head(&self) -> [u8; HEAD_BYTES]
        ensures { result ≡ file_head self.now }
    {
        let mut head = [0; HEAD_BYTES];
        head[..8].copy_from_slice(b"ARIESTL2");
        head[8..16].copy_from_slice(&self.length.to_be_bytes());
        head[16..24].copy_from_slice(&self.kept.to_be_bytes());
        head[24..32].copy_from_slice(&(self.frames.len() as u64).to_be_bytes());
        head[32..40].copy_from_slice(&self.end.to_be_bytes());
        head[40..].copy_from_slice(&self.cut.to_be_bytes());
        head
    }

    /// The sum of what comes before it.
    fn sum(&self) -> u64
        ensures { result ≡ sum_of (file_front self.now) }
    {
        sum_on(sum_on(SUM_OF_NONE, &self.head()), self.frames)
    }

    /// Writes the file to a sink, after what the sink took before, and flushes it.
    ///
    /// `Failed` if the sink failed. Its count of failures then rises by one, and it has taken a
    /// prefix of the file.
    pub fn write<S: Sink>(&self, sink: &mut S) -> Result<(), Failed>
        ensures all { OnOk result (AreOut S.Sink sink.old sink.new (file_text self.now)) }
        ensures beginning { OnErr result (Began S.Sink sink.old sink.new (file_text self.now)) }
        ensures cause { Counts (S.failures sink.old) (S.failures sink.new) result }
    {
        write_all(sink, &self.head())?;
        write_all(sink, self.frames)?;
        write_all(sink, &self.sum().to_be_bytes())?;
        sink.flush()
    }

    /// The file of a tail in these bytes; `None` if they are not a whole one, for example after a
    /// crash while it was written.
    pub fn read(bytes: &'a [u8]) -> Option<TailFile<'a>>
        ensures found { IfSome result (λ file. bytes.entry.now ≡ file_text file) }
        ensures whole { IfTailFile bytes.entry.now (is_some result ≡ true) }
    {
        if bytes.len() < HEAD_BYTES + NUMBER_BYTES {
            return None;
        }
        let (front, sum) = bytes.split_at(bytes.len() - NUMBER_BYTES);
        let (head, frames) = front.split_at(HEAD_BYTES);
        let file = TailFile {
            length: number_at(head, 8),
            kept: number_at(head, 16),
            end: number_at(head, 32),
            cut: number_at(head, 40),
            frames,
        };
        if head != file.head().as_slice() {
            return None;
        }
        if sum != file.sum().to_be_bytes().as_slice() {
            return None;
        }
        Some(file)
    }

    /// The offset in the log of the end that the file has the sum of.
    pub fn end_offset(&self) -> u64
        ensures { result ≡ self.now.kept - END_BYTES }
    {
        self.kept.saturating_sub(END_BYTES as u64)
    }

    /// Whether the file has the sum of these bytes: whether they end the log to which it belongs.
    pub fn belongs_to(&self, end: &[u8]) -> bool
        ensures { IsTrue result ↔ (self.now.end ≡ sum_of end.now) }
    {
        self.end == sum_on(SUM_OF_NONE, end)
    }

    /// Whether these are, by their sum, the bytes to cut off.
    pub fn cuts(&self, bytes: &[u8]) -> bool
        ensures { IsTrue result ↔ (self.now.cut ≡ sum_of bytes.now) }
    {
        self.cut == sum_on(SUM_OF_NONE, bytes)
    }
}
