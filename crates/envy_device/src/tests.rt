ghost use Rattle.std.specs.Prelude.{◌≡◌, true, false};
ghost use Rattle.envy_device.specs.Calls.{have_failed};

use crate::{
    Device, DeviceFailed, FileCalls, LoggedFile, Made, Record, ReplaceError, Replaceable,
    SecondFailed,
};
use std::test::Fail;

// A file whose calls do nothing, and of which one fails.
#[derive(Drop)]
struct Fake {
    record: Record,
    failed: bool,
    calls: u32,
    fails_at: u32,
    ghost noted: { failed ≡ have_failed record.calls },
}

impl Fake {
    ghost use Rattle.envy_device.specs.Calls.{Notes, is_failure};
    ghost use Rattle.envy_device.specs.Noted.{call_of};

    // Whether this call fails.
    fn fails(&mut self) -> bool
        ensures calls { self.new.record ≡ self.old.record }
        ensures failed { self.new.failed ≡ self.old.failed }
    {
        let call = self.calls;
        self.calls = call.wrapping_add(1);
        call == self.fails_at
    }

    fn call(&mut self, done: &Made<'_>, failed: &Made<'_>) -> Result<(), DeviceFailed>
        requires done { is_failure (call_of done.now) ≡ false }
        requires failed { is_failure (call_of failed.now) ≡ true }
        ensures { Notes (call_of done.now) (call_of failed.now) result self.old.record.calls self.new.record.calls }
    {
        if self.fails() {
            self.record = self.record.and(failed);
            self.failed = true;
            return Err(DeviceFailed);
        }
        self.record = self.record.and(done);
        Ok(())
    }

    fn call_second(&mut self, done: &Made<'_>, failed: &Made<'_>) -> Result<(), SecondFailed>
        requires done { is_failure (call_of done.now) ≡ false }
        requires failed { is_failure (call_of failed.now) ≡ false }
        ensures { Notes (call_of done.now) (call_of failed.now) result self.old.record.calls self.new.record.calls }
    {
        if self.fails() {
            self.record = self.record.and(failed);
            return Err(SecondFailed);
        }
        self.record = self.record.and(done);
        Ok(())
    }
}

impl FileCalls for Fake {
    ghost calls = { λ fake. fake.record.calls };

    fn has_failed(&self) -> bool {
        self.failed
    }

    fn write_at(&mut self, at: usize, bytes: &[u8]) -> Result<(), DeviceFailed> {
        self.call(&Made::Wrote { at, bytes }, &Made::WriteFailed { at, bytes })
    }

    fn cut(&mut self, size: usize) -> Result<(), DeviceFailed> {
        self.call(&Made::CutTo { size }, &Made::CutFailed { size })
    }

    fn sync(&mut self) -> Result<(), DeviceFailed> {
        self.call(&Made::Synced, &Made::SyncFailed)
    }

    fn begin(&mut self) -> Result<(), SecondFailed> {
        self.call_second(&Made::Began, &Made::BeginFailed)
    }

    fn append(&mut self, bytes: &[u8]) -> Result<(), SecondFailed> {
        let size = bytes.len();
        self.call_second(&Made::Appended { bytes }, &Made::AppendFailed { size })
    }

    fn replace(&mut self) -> Result<(), ReplaceError> {
        if self.fails() {
            self.record = self.record.and(&Made::SecondNotReplaced);
            return Err(ReplaceError::Second);
        }
        self.record = self.record.and(&Made::Replaced);
        Ok(())
    }
}

// Six calls, one of each kind, of which the n-th fails. After one on the file fails no call is made. After one on the second
// file fails those on the file are made, and none on the second file.
#[test]
fn after_a_failure_no_call_is_made(rt: HostRuntime) -> Result<(), Fail> {
    // for each call that fails, which of the six are done, and how many are made
    let table = [
        (0, [false, false, false, false, false, false], 1),
        (1, [true, false, false, false, false, false], 2),
        (2, [true, true, false, false, false, true], 4),
        (3, [true, true, true, false, false, true], 5),
        (4, [true, true, true, true, false, true], 6),
        (5, [true, true, true, true, true, false], 6),
        (6, [true, true, true, true, true, true], 6),
    ];
    for (fails_at, wanted, made) in table {
        let record = Record::new().and(&Made::Found { bytes: b"abc" });
        let fake = Fake {
            record,
            failed: false,
            calls: 0,
            fails_at,
        };
        let mut file = LoggedFile::found(fake, b"abc", false);
        let answers = [
            file.write_at(0, b"x").is_ok(),
            file.sync().is_ok(),
            file.begin_second().is_ok(),
            file.write_second(b"yz").is_ok(),
            file.replace().is_ok(),
            file.cut(0).is_ok(),
        ];
        assert_eq!(rt; answers, wanted, "fails at {fails_at}");
        assert_eq!(rt; file.file.calls, made, "calls, if {fails_at} fails");
    }
    Ok(())
}
