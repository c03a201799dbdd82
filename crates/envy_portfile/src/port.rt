ghost use Rattle.std.specs.Prelude.{◌≡◌, true, false};
ghost use Rattle.envy_device.specs.Device.{Only};
ghost use Rattle.envy_device.specs.Calls.{MayLeave, Notes, have_failed, is_failure, seen_after};
ghost use Rattle.envy_portfile.specs.Orders.{done_of, failed_of};

use crate::order::{Order, done, failed};
use envy_device::{DeviceFailed, FileCalls, LoggedFile, Made, Record, ReplaceError, SecondFailed};

/// The answer that says that an order was carried out.
const DONE: u8 = 0;
/// The answer that says that one wasn't, or that nothing is known of it.
const FAILED: u8 = 1;
/// The answer that says that the second file wasn't put in the file's place, and that the file is as it was.
const NOT_REPLACED: u8 = 2;

/// A file behind a port of a program in C.
#[derive(Drop)]
pub struct FilePort {
    /// The number that tells one file from another.
    pub number: i32,
    failed: bool,
    /// The orders that were given, with their answers.
    pub record: Record,
    ghost noted: { failed ≡ have_failed record.calls },
}

/// A file behind a port, as a device.
pub type PortFile = LoggedFile<FilePort>;

impl FilePort {
    /// The file behind a port, which was brought to the disk and then read whole from there: it holds these bytes. That it is written
    /// byte by byte is a premise, which the caller states or doesn't.
    pub fn found(number: i32, bytes: &[u8], bytewise: bool) -> PortFile
        ensures bytes { seen_after result.file.record.calls ≡ bytes.now }
        ensures durable { Only (seen_after result.file.record.calls) (MayLeave result.bytewise result.file.record.calls) }
        ensures works { have_failed result.file.record.calls ≡ false }
        ensures bytewise { result.bytewise ≡ bytewise }
    {
        let record = Record::new().and(&Made::Found { bytes });
        let port = FilePort {
            number,
            failed: false,
            record,
        };
        LoggedFile::found(port, bytes, bytewise)
    }

    // Gives an order, and waits for the answer. Nothing else here calls the port.
    fn answer(&self, order: &Order<'_>) -> u8 {
        let mut answer = [FAILED];
        let is_answered = io::write_all(self.number, &order.header())
            && io::write_all(self.number, order.behind())
            && io::read_full(self.number, &mut answer) == 1;
        if is_answered { answer[0] } else { FAILED }
    }

    // Gives an order about the file, and notes the call by its answer.
    fn order(&mut self, order: &Order<'_>) -> Result<(), DeviceFailed>
        requires { is_failure (failed_of order.now) ≡ true }
        ensures { Notes (done_of order.now) (failed_of order.now) result self.old.record.calls
            self.new.record.calls }
    {
        if self.answer(order) == DONE {
            self.record = self.record.and(&done(order));
            Ok(())
        } else {
            self.record = self.record.and(&failed(order));
            self.failed = true;
            Err(DeviceFailed)
        }
    }

    // The same of an order about the second file, which leaves the file as it is.
    fn order_second(&mut self, order: &Order<'_>) -> Result<(), SecondFailed>
        requires { is_failure (failed_of order.now) ≡ false }
        ensures { Notes (done_of order.now) (failed_of order.now) result self.old.record.calls
            self.new.record.calls }
    {
        if self.answer(order) == DONE {
            self.record = self.record.and(&done(order));
            Ok(())
        } else {
            self.record = self.record.and(&failed(order));
            Err(SecondFailed)
        }
    }
}

impl FileCalls for FilePort {
    ghost calls = { λ port. port.record.calls };

    fn has_failed(&self) -> bool {
        self.failed
    }

    fn write_at(&mut self, at: usize, bytes: &[u8]) -> Result<(), DeviceFailed> {
        self.order(&Order::Write { at, bytes })
    }

    fn cut(&mut self, size: usize) -> Result<(), DeviceFailed> {
        self.order(&Order::Cut { size })
    }

    fn sync(&mut self) -> Result<(), DeviceFailed> {
        self.order(&Order::Sync)
    }

    fn begin(&mut self) -> Result<(), SecondFailed> {
        self.order_second(&Order::Begin)
    }

    fn append(&mut self, bytes: &[u8]) -> Result<(), SecondFailed> {
        self.order_second(&Order::Append { bytes })
    }

    fn replace(&mut self) -> Result<(), ReplaceError> {
        match self.answer(&Order::Replace) {
            DONE => {
                self.record = self.record.and(&Made::Replaced);
                Ok(())
            }
            NOT_REPLACED => {
                self.record = self.record.and(&Made::SecondNotReplaced);
                Err(ReplaceError::Second)
            }
            _ => {
                self.record = self.record.and(&Made::ReplaceFailed);
                self.failed = true;
                Err(ReplaceError::Failed)
            }
        }
    }
}
