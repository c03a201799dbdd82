// The bytes of a second file, on their way through the log's buffer.
ghost use Rattle.std.specs.Prelude.{◌≡◌, ◌⊎◌, ◌+◌, ◌<◌, ◌≤◌, ◌^◌, ◌++◌, ◌∷◌, [], false, List, ℕ, IsTrue, length, OnOk, OnErr, IsErrOf};
ghost use Rattle.envy_device.specs.Device.{Only, LeavesOnly};
ghost use Rattle.envy_device.specs.declared.device.ReplaceError.TheVariants.{Second, Failed};
ghost use Rattle.envy_journal.specs.Content.{blank};
ghost use Rattle.envy_journal.specs.Snapshot.{Gathers, Hinders, IsAside, IsUntouched, Makes, gathered};

use crate::head::with_gate;
use crate::log::Log;
use crate::operation::{CLOSED, OPEN, STOP, copy_behind};
use envy_base::Shape;
use envy_device::{ReplaceError, Replaceable, SecondFailed};

impl<D: Replaceable> Log<D> {
    // Writes what the buffer holds behind the bytes of the second file.
    fn spill_second(&mut self) -> Result<(), SecondFailed>
        requires gathers { Gathers D.second self.old }
        requires small { length (gathered D.second self.old) < 2 ^ 63 }
        ensures ok { OnOk result ((D.second self.new.device ≡ gathered D.second self.old) × (self.new.used ≡ 0)) }
        ensures gathers { OnOk result (Gathers D.second self.new) }
        ensures gathered { OnOk result (gathered D.second self.new ≡ gathered D.second self.old) }
        ensures aside { IsAside self.old self.new }
        ensures untouched { IsUntouched D.seen D.may_leave D.moment D.left_since D.synced D.bytewise
            self.old.device self.new.device }
        ensures hindered { Hinders D.goes_on D.goes_on D.hindered self.old.device result self.new.device }
    {
        self.device.write_second(&self.buffer[..self.used])?;
        self.second += self.used;
        self.used = 0;
        Ok(())
    }

    // Puts bytes into the buffer, where there is room.
    fn hold_second(&mut self, bytes: &[u8])
        requires gathers { Gathers D.second self.old }
        requires room { self.old.used + length bytes.now ≤ length self.old.buffer.items }
        ensures gathers { Gathers D.second self.new }
        ensures gathered { gathered D.second self.new ≡ gathered D.second self.old ++ bytes.now }
        ensures device { self.new.device ≡ self.old.device }
        ensures aside { IsAside self.old self.new }
    {
        copy_behind(&mut self.buffer, self.used, bytes);
        self.used += bytes.len();
    }

    /// Adds bytes behind the second file.
    pub(crate) fn append_second(&mut self, bytes: &[u8]) -> Result<(), SecondFailed>
        requires gathers { Gathers D.second self.old }
        requires few { length bytes.now ≤ 263 }
        requires small { length (gathered D.second self.old) < 2 ^ 63 }
        ensures gathers { OnOk result (Gathers D.second self.new) }
        ensures gathered { OnOk result (gathered D.second self.new ≡ gathered D.second self.old ++ bytes.now) }
        ensures aside { IsAside self.old self.new }
        ensures untouched { IsUntouched D.seen D.may_leave D.moment D.left_since D.synced D.bytewise
            self.old.device self.new.device }
        ensures hindered { Hinders D.goes_on D.goes_on D.hindered self.old.device result self.new.device }
    {
        if bytes.len() > self.buffer.len() - self.used {
            self.spill_second()?;
        }
        self.hold_second(bytes);
        Ok(())
    }

    // Begins a second file with these bytes, in place of what the buffer held.
    fn begin_with(&mut self, bytes: &[u8]) -> Result<(), SecondFailed>
        requires room { 263 ≤ length self.old.buffer.items }
        requires few { length bytes.now ≤ 263 }
        ensures gathers { OnOk result (Gathers D.second self.new) }
        ensures gathered { OnOk result (gathered D.second self.new ≡ bytes.now) }
        ensures aside { IsAside self.old self.new }
        ensures untouched { IsUntouched D.seen D.may_leave D.moment D.left_since D.synced D.bytewise
            self.old.device self.new.device }
        ensures hindered { Hinders (λ d. D.has_failed d ≡ false) D.goes_on D.hindered self.old.device result
            self.new.device }
    {
        self.device.begin_second()?;
        self.second = 0;
        copy_behind(&mut self.buffer, 0, bytes);
        self.used = bytes.len();
        Ok(())
    }

    /// Begins a second file with a head and an open gate, in place of what the buffer held.
    pub(crate) fn begin_second(&mut self, shape: &Shape) -> Result<(), SecondFailed>
        requires room { 263 ≤ length self.old.buffer.items }
        ensures gathers { OnOk result (Gathers D.second self.new) }
        ensures makes { OnOk result (Makes shape.now (blank shape.now) 34 (gathered D.second self.new)) }
        ensures aside { IsAside self.old self.new }
        ensures untouched { IsUntouched D.seen D.may_leave D.moment D.left_since D.synced D.bytewise
            self.old.device self.new.device }
        ensures hindered { Hinders (λ d. D.has_failed d ≡ false) D.goes_on D.hindered self.old.device result
            self.new.device }
    {
        self.begin_with(&with_gate(shape, OPEN))
    }

    /// Ends the batch of the second file with a closed gate, and puts it in the file's place.
    pub(crate) fn replace(&mut self) -> Result<(), ReplaceError>
        requires gathers { Gathers D.second self.old }
        requires small { length (gathered D.second self.old) < 2 ^ 62 }
        ensures file { OnOk result ((D.seen self.new.device ≡ gathered D.second self.old ++ 5 ∷ 0 ∷ [])
            × (self.new.used ≡ 0) × (self.new.zeros ≡ 0)) }
        ensures gate { OnOk result ((self.new.gate ≡ length (gathered D.second self.old) + 1)
            × (self.new.end ≡ self.new.gate + 1) × (self.new.size ≡ self.new.gate + 1)) }
        ensures durable { OnOk result (Only (D.seen self.new.device) (D.may_leave self.new.device)) }
        ensures synced { OnOk result (D.synced self.new.device ≡ D.moment self.new.device) }
        ensures room { length self.new.buffer.items ≡ length self.old.buffer.items }
        ensures aside { OnErr result (IsAside self.old self.new) }
        ensures untouched { IsErrOf result Second
            → IsUntouched D.seen D.may_leave D.moment D.left_since D.synced D.bytewise
            self.old.device self.new.device }
        ensures failed { IsErrOf result Failed → IsTrue (D.has_failed self.new.device) }
        ensures hindered { D.goes_on self.old.device → IsErrOf result Second
            → D.hindered self.old.device < D.hindered self.new.device }
        ensures any_moment { LeavesOnly D.moment D.left_since self.old.device self.new.device
            (λ c. D.may_leave self.old.device c ⊎ c ≡ gathered D.second self.old ++ 5 ∷ 0 ∷ []) }
    {
        self.append_second(&[STOP, CLOSED])?;
        self.spill_second()?;
        self.device.replace()?;
        self.gate = self.second - 1;
        self.end = self.second;
        self.size = self.second;
        self.zeros = 0;
        self.runs = true;
        Ok(())
    }
}
