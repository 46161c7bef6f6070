//! Devices whose failures and reads are counted.
//!
//! So contracts can tell a fault that the device gave from one that was made up.
ghost use Rattle.std.specs.Prelude.{◌≡◌, ◌+◌};
ghost use Rattle.std.specs.Io.{ReadsAtMost, WritesAtMost};
ghost use Rattle.std.specs.Io.KnownBytes.{Keeps, ReadConsumes, WriteAppends};

use crate::tally::Tally;
use std::io::{Read, Result, Write};

/// A reader or a writer, how often it has failed, how often it was read from, and how many writes
/// came after the last flush. Only contracts see the counts. They take no memory and have no
/// greatest value.
///
/// A call through it raises the count of failures by one exactly if the device returns a fault, or
/// takes no byte of a piece that has some. Each read raises the count of reads by one, and each write
/// that of writes, which a flush that does not fail sets to zero.
///
/// That it does not call its device again after a failure, and that `flush` flushes the device, is
/// only tested: the contract of the standard library sees a device by its bytes alone.
#[derive(Drop)]
pub struct Counted<D> {
    device: D,
    failures: Tally,
    reads: Tally,
    unflushed: Tally,
}

impl<D> Counted<D> {
    ghost use Rattle.tools_devices.specs.Counted.{device_of, failures_of, reads_of, IsFlushed};

    /// The device, with no failure, no read and no write counted yet.
    pub fn new(device: D) -> Counted<D>
        ensures device { device_of result ≡ device }
        ensures no_failure { failures_of result ≡ 0 }
        ensures no_read { reads_of result ≡ 0 }
        ensures flushed { IsFlushed result }
    {
        Counted {
            device,
            failures: Tally::zero(),
            reads: Tally::zero(),
            unflushed: Tally::zero(),
        }
    }

    /// The device, unchanged.
    pub fn into_inner(self) -> D
        ensures { result ≡ device_of self }
    {
        let Counted {
            device,
            failures,
            reads,
            unflushed,
        } = self;
        drop(failures);
        drop(reads);
        drop(unflushed);
        device
    }
}

impl<R: Read> Read for Counted<R> {
    ghost use Rattle.tools_devices.specs.Counted.{device_of, failed_read, failures_of, reads_of, unflushed_of};

    ghost remaining = { λ c. R.remaining (device_of c) };

    fn read(&mut self, buf: &mut [u8]) -> Result<usize>
        ensures bound { ReadsAtMost result buf.new }
        ensures bytes { ReadConsumes (R.remaining (device_of self.old))
            (R.remaining (device_of self.new)) result buf.new }
        ensures failures { failures_of self.new ≡ failures_of self.old + failed_read result }
        ensures reads { reads_of self.new ≡ reads_of self.old + 1 }
        ensures unflushed { unflushed_of self.new ≡ unflushed_of self.old }
    {
        self.reads = self.reads.plus_one();
        let result = self.device.read(buf);
        if result.is_err() {
            self.failures = self.failures.plus_one();
        }
        result
    }
}

impl<W: Write> Write for Counted<W> {
    ghost use Rattle.tools_devices.specs.Counted.{device_of, failed_read, failed_write, failures_of, reads_of, unflushed_after, unflushed_of};

    ghost contents = { λ c. W.contents (device_of c) };

    fn write(&mut self, buf: &[u8]) -> Result<usize>
        ensures bound { WritesAtMost result buf.now }
        ensures bytes { WriteAppends (W.contents (device_of self.old))
            (W.contents (device_of self.new)) result buf.now }
        ensures failures { failures_of self.new ≡ failures_of self.old + failed_write result buf.now }
        ensures reads { reads_of self.new ≡ reads_of self.old }
        ensures unflushed { unflushed_of self.new ≡ unflushed_of self.old + 1 }
    {
        self.unflushed = self.unflushed.plus_one();
        let result = self.device.write(buf);
        match &result {
            Ok(count) => {
                if *count == 0 && !buf.is_empty() {
                    self.failures = self.failures.plus_one();
                }
            }
            Err(_) => self.failures = self.failures.plus_one(),
        }
        result
    }

    fn flush(&mut self) -> Result<()>
        ensures bytes { Keeps (W.contents (device_of self.old)) (W.contents (device_of self.new)) }
        ensures failures { failures_of self.new ≡ failures_of self.old + failed_read result }
        ensures reads { reads_of self.new ≡ reads_of self.old }
        ensures unflushed { unflushed_of self.new ≡ unflushed_after result (unflushed_of self.old) }
    {
        let result = self.device.flush();
        if result.is_err() {
            self.failures = self.failures.plus_one();
        } else {
            self.unflushed = Tally::zero();
        }
        result
    }
}
