// What a process leaves of a file when it ends, while the machine goes on.
ghost use Rattle.std.specs.Prelude.{◌≡◌, IfOk, OnOk, false};
ghost use Rattle.envy_device.specs.Device.{Only};
ghost use Rattle.envy_torn.specs.Left.{disk_bytes, held_bytes};
ghost use Rattle.envy_torn.specs.Torn.{file_bytes, file_bytewise, file_failed, file_outcome};

use crate::call::follow;
use crate::{Dice, TornFile};
use std::alloc::{AllocError, Global};

/// What a process leaves of a file when it ends, while the machine goes on: what the system holds of the file, which is what
/// a read gives, and what is on the disk. After a call that failed the two may differ: the system tells of a write that
/// failed once, takes what it holds for written from then on, and no later sync writes it.
#[derive(Drop)]
pub struct LeftFile {
    held: Vec<u8>,
    disk: Vec<u8>,
}

impl LeftFile {
    /// What is left of a file. If no call failed the next process's sync brings all of it to the disk, and else what is on
    /// the disk is drawn.
    pub fn of(alloc: Global, file: &TornFile, dice: &mut Dice) -> Result<LeftFile, AllocError>
        ensures { IfOk result (λ left. held_bytes left ≡ file_bytes file.now) }
    {
        let held = file.bytes().to_vec(alloc)?;
        let disk = if file.failed {
            file.crash(alloc, dice)?
        } else {
            file.bytes().to_vec(alloc)?
        };
        Ok(LeftFile { held, disk })
    }

    /// What a read gives.
    pub fn held(&self) -> &[u8]
        ensures { result.now ≡ held_bytes self.now }
    {
        &self.held
    }

    /// What is on the disk.
    pub fn disk(&self) -> &[u8]
        ensures { result.now ≡ disk_bytes self.now }
    {
        &self.disk
    }

    /// The system drops what it holds, so that a read gives what is on the disk.
    pub fn drop_held(&mut self, alloc: Global) -> Result<(), AllocError>
        ensures dropped { OnOk result (held_bytes self.new ≡ disk_bytes self.new) }
        ensures disk { disk_bytes self.new ≡ disk_bytes self.old }
    {
        self.held = self.disk.to_vec(alloc)?;
        Ok(())
    }

    /// The file as the next process finds it. It must have dropped what the system held: only then is all that it reads on
    /// the disk.
    pub fn found(&self, alloc: Global, left: usize, bytewise: bool) -> Result<TornFile, AllocError>
        requires dropped { held_bytes self.now ≡ disk_bytes self.now }
        ensures bytes { IfOk result (λ file. file_bytes file ≡ held_bytes self.now) }
        ensures bytewise { IfOk result (λ file. file_bytewise file ≡ bytewise) }
        ensures durable { IfOk result (λ file. Only (disk_bytes self.now) (file_outcome file)) }
        ensures works { IfOk result (λ file. file_failed file ≡ false) }
    {
        TornFile::new(alloc, self.held.to_vec(alloc)?, left, bytewise)
    }

    /// What is on the disk after a process made its calls over what it read, with nothing dropped, and synced them all: what
    /// differed before, and wasn't written by it, differs still.
    pub fn disk_after(&self, alloc: Global, file: &TornFile) -> Result<Vec<u8>, AllocError> {
        let mut disk = self.disk.to_vec(alloc)?;
        // the length is that of what the system holds
        disk.truncate(self.held.len());
        for _ in disk.len()..self.held.len() {
            disk.push(0)?;
        }
        for call in &file.calls {
            follow(&mut disk, call)?;
        }
        Ok(disk)
    }
}
