//! What a device is.

ghost use Rattle.std.specs.Prelude.{◌≡◌, ℕ, List, None, IfOk, OnOk, OnErr, ◌<◌, length};
ghost use Rattle.std.specs.declared.option.Option.{Option};
ghost use Rattle.std.specs.Io.{ReadsAtMost, WritesAtMost};
ghost use Rattle.std.specs.Io.KnownBytes.{Keeps, ReadConsumes, WriteAppends};
ghost use Rattle.device.specs.Failures.{Counts};
ghost use Rattle.device.specs.Transfer.{Flushes};
ghost use Rattle.device.specs.Continued.{Cuts, Shortens};
ghost use Rattle.device.specs.Reread.{EndsBy, Reaches, ReadsFrom};

/// A device failed. It does not say why.
#[derive(Clone, Copy, Debug, PartialEq, Eq, Drop)]
pub struct Failed;

/// A device that bytes are read from. A contract sees how often it has failed and, if they are
/// known, the bytes that it has left.
pub trait Source {
    /// How often the device has failed so far.
    ghost failures: { Self → ℕ };

    /// The bytes left to be read, or `None` if they are not known.
    ghost left: { Self → Option (List ℕ) } = { λ _. None };

    /// About how many bytes there are to read, 0 if the device does not know. A reader may make
    /// room for this many at once, but must not rely on it: there may be fewer bytes, or more.
    fn hint(&self) -> usize {
        0
    }

    /// Puts a prefix of the bytes that are left at the front of the buffer, and returns its length:
    /// 0 only at the end or if the buffer is empty. The rest of the buffer is not specified.
    ///
    /// `Failed` if the device failed. Its count of failures then rises by one, nothing was read,
    /// and the content of the buffer is not specified.
    fn read(&mut self, buffer: &mut [u8]) -> Result<usize, Failed>
        ensures bound { ReadsAtMost result buffer.new }
        ensures bytes { ReadConsumes (left self.old) (left self.new) result buffer.new }
        ensures cause { Counts (failures self.old) (failures self.new) result };
}

/// A device that bytes are written to. A contract sees how often it has failed and, if they are
/// known, the bytes that it has taken and those of them that are flushed.
pub trait Sink {
    /// How often the device has failed so far.
    ghost failures: { Self → ℕ };

    /// The bytes taken so far, or `None` if they are not known.
    ghost taken: { Self → Option (List ℕ) } = { λ _. None };

    /// The bytes that had been taken when a flush last succeeded, or `None` if they are not known.
    ghost flushed: { Self → Option (List ℕ) } = { λ _. None };

    /// Takes a prefix of these bytes, which follow those taken so far, and returns its length: 0
    /// only if there are no bytes.
    ///
    /// `Failed` if the device failed. Its count of failures then rises by one, and nothing was
    /// taken.
    fn write(&mut self, bytes: &[u8]) -> Result<usize, Failed>
        ensures bound { WritesAtMost result bytes.now }
        ensures progress { IfOk result (λ count. 0 < length bytes.now → 0 < count) }
        ensures bytes { WriteAppends (taken self.old) (taken self.new) result bytes.now }
        ensures unflushed { Keeps (flushed self.old) (flushed self.new) }
        ensures cause { Counts (failures self.old) (failures self.new) result };

    /// Asks that the bytes taken so far reach the place where they stay. On success all of them are
    /// flushed. The call takes no bytes.
    ///
    /// `Failed` if the device failed. Its count of failures then rises by one, and it is not known
    /// which of the bytes are flushed.
    fn flush(&mut self) -> Result<(), Failed>
        ensures bytes { Keeps (taken self.old) (taken self.new) }
        ensures all { OnOk result (Flushes (flushed self.old) (flushed self.new) (taken self.new)) }
        ensures cause { Counts (failures self.old) (failures self.new) result };
}

/// A sink that may hold bytes from before, and whose end can be cut off: a log that is continued in
/// place. The bytes taken so far are all that it holds.
pub trait Continue: Sink {
    /// Cuts off what comes after the first `length` bytes. A device that holds no more bytes keeps
    /// all. Until a flush the bytes that are cut off may come back, if the power fails.
    ///
    /// `Failed` if the device failed. Its count of failures then rises by one, and nothing was cut
    /// off.
    fn cut(&mut self, length: u64) -> Result<(), Failed>
        ensures bytes { OnOk result (Cuts (Self.taken self.old) (Self.taken self.new) length) }
        ensures uncut { OnErr result (Keeps (Self.taken self.old) (Self.taken self.new)) }
        ensures flushed { Shortens (Self.flushed self.old) (Self.flushed self.new) }
        ensures cause { Counts (Self.failures self.old) (Self.failures self.new) result };
}

/// A source that can be read again, from any offset.
pub trait Reread: Source {
    /// All bytes that the device holds, from its beginning on, or `None` if they are not known.
    ghost text: { Self → Option (List ℕ) } = { λ _. None };

    /// How far these bytes are read without a gap: the offset before which each of them was read,
    /// or is in memory.
    ghost read_to: { Self → ℕ } = { λ _. 0 };

    /// Puts bytes that the device holds from `offset` on at the front of the buffer, and returns
    /// how many: 0 only if `offset` is at or past the end, or if the buffer is empty. There may be
    /// fewer than the device holds and the buffer takes. The rest of the buffer is not specified,
    /// nor is the place from which `read` continues afterwards.
    ///
    /// `Failed` if the device failed. Its count of failures then rises by one, and the content of
    /// the buffer is not specified. The device still holds the same bytes.
    fn read_at(&mut self, offset: u64, buffer: &mut [u8]) -> Result<usize, Failed>
        ensures bound { ReadsAtMost result buffer.new }
        ensures bytes { IfOk result (λ count. ReadsFrom (text self.old) offset count buffer.new) }
        ensures end { IfOk result (λ count. count ≡ 0 → 0 < length buffer.new
            → EndsBy (text self.old) offset) }
        ensures same { Keeps (text self.old) (text self.new) }
        ensures reach { Reaches (text self.old) (read_to self.old) (read_to self.new) offset result }
        ensures cause { Counts (Self.failures self.old) (Self.failures self.new) result };
}
