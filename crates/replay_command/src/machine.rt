//! The machine that a script runs on: each record changes it and may write.

ghost use Rattle.std.specs.Prelude.{◌≡◌, ◌+◌, ◌^◌, ◌<◌, ◌≤◌, ◌%◌, length, IfOk, OnOk};

use crate::report::{put_called, put_changes};
use crate::state::put_state;
use abi_registers::Registers;
use compat_calls::{World, trap_by_kind};
use kernel_values::{AbiKind, Credentials, KernelFault, OutOfMemory, SigInfo, Usage};
use native_kernel::Identity;
use report_text::{put_end, put_gone};
use script_reader::Record;
use std::alloc::Global;
use user_memory::{MapFault, Rights};

/// Whose process it is where a script doesn't say.
const OWNER: Identity = Identity {
    pid: 0x3e8,
    uid: 0x3e8,
    gid: 0x3e8,
    privileged: false,
    real: 0,
    monotonic: 0,
    usage: Usage { words: [0; 18] },
};

/// The process with its kernel, and how many calls there were.
#[derive(Drop)]
pub struct Machine {
    /// How many calls were run.
    pub calls: u64,
    /// The kind of process, once a header has told it.
    pub kind: AbiKind,
    pub world: World,
}

impl Machine {
    ghost use Rattle.script_reader.specs.Grammar.{line_of, IsInRange};
    ghost use Rattle.replay_command.specs.Machine.{Did, advance, applied, call, poke, post, set_bytes, set_clock, set_directory, set_file, set_kind, set_lock, set_page, set_restorer, set_usage, set_who, silent, start};

    /// At the start of a script.
    #[tactic(auto, unfolding(crate::specs::Machine::start))]
    pub fn new(alloc: Global) -> Result<Machine, OutOfMemory>
        ensures { IfOk result (λ m. m ≡ start) }
    {
        Ok(Machine {
            calls: 0,
            kind: AbiKind::Ia32,
            world: World::new(alloc, &OWNER, 0)?,
        })
    }

    #[tactic(auto, unfolding(crate::specs::Machine::set_clock))]
    fn set_clock(&mut self, real: u64, monotonic: u64)
        requires real { real < 2 ^ 62 }
        requires monotonic { monotonic < 2 ^ 62 }
        ensures machine { self.new ≡ set_clock self.old real monotonic }
        ensures calls { self.new.calls ≡ self.old.calls }
    {
        self.world.kernel.start_clocks(real, monotonic);
    }

    /// Whose process it is. What it has used stays.
    #[tactic(auto, unfolding(crate::specs::Machine::set_who))]
    fn set_who(&mut self, owner: &Credentials, privileged: bool)
        ensures machine { self.new ≡ set_who self.old owner.now privileged }
        ensures calls { self.new.calls ≡ self.old.calls }
    {
        self.world.kernel.start_owner(owner, privileged);
    }

    /// What the process has used. Whose it is stays.
    #[tactic(auto, unfolding(crate::specs::Machine::set_usage))]
    fn set_usage(&mut self, usage: &Usage)
        ensures machine { self.new ≡ set_usage self.old usage.now }
        ensures calls { self.new.calls ≡ self.old.calls }
    {
        self.world.kernel.start_usage(usage);
    }

    /// The return address of signal handlers.
    #[tactic(auto, unfolding(crate::specs::Machine::set_restorer))]
    fn set_restorer(&mut self, address: u32)
        ensures machine { self.new ≡ set_restorer self.old address }
        ensures calls { self.new.calls ≡ self.old.calls }
    {
        self.world.restorer = address;
    }

    /// A page with its first bytes, where none is yet and there is room for it.
    #[tactic(auto, unfolding(crate::specs::Machine::set_page))]
    fn set_page(&mut self, at: u32, writable: bool, bytes: &[u8]) -> Result<(), OutOfMemory>
        requires whole { at % 4096 ≡ 0 }
        requires short { length bytes.now ≤ 4096 }
        ensures page { OnOk result (self.new ≡ set_page self.old at writable bytes.now) }
        ensures calls { self.new.calls ≡ self.old.calls }
    {
        let rights = if writable {
            Rights::ReadWrite
        } else {
            Rights::Read
        };
        match self.world.memory.map_page(at / 4096, rights) {
            Ok(()) => {}
            Err(MapFault::OutOfMemory) => return Err(OutOfMemory),
            Err(_) => return Ok(()),
        }
        match self.world.memory.poke(at, bytes) {
            Ok(()) => Ok(()),
            Err(_) => unreachable!(),
        }
    }

    /// The kind of process.
    #[tactic(auto, unfolding(crate::specs::Machine::set_kind))]
    fn set_kind(&mut self, kind: AbiKind)
        ensures machine { self.new ≡ set_kind self.old kind }
        ensures calls { self.new.calls ≡ self.old.calls }
    {
        self.kind = kind;
    }

    /// A directory of the image, where the path can have it.
    #[tactic(auto, unfolding(crate::specs::Machine::set_directory))]
    fn set_directory(&mut self, alloc: Global, path: &[u8], inode: u64) -> Result<(), OutOfMemory>
        ensures machine { OnOk result (self.new ≡ set_directory self.old path.now inode) }
        ensures calls { self.new.calls ≡ self.old.calls }
    {
        match self.world.kernel.image_directory(alloc, path, inode) {
            Err(KernelFault::OutOfMemory) => Err(OutOfMemory),
            Ok(()) | Err(KernelFault::Errno(_)) => Ok(()),
        }
    }

    /// A file of the image, of zeros, where the path can have it.
    #[tactic(auto, unfolding(crate::specs::Machine::set_file))]
    fn set_file(
        &mut self,
        alloc: Global,
        path: &[u8],
        inode: u64,
        size: u64,
    ) -> Result<(), OutOfMemory>
        ensures machine { OnOk result (self.new ≡ set_file self.old path.now inode size) }
        ensures calls { self.new.calls ≡ self.old.calls }
    {
        match self.world.kernel.image_file(alloc, path, inode, size) {
            Err(KernelFault::OutOfMemory) => Err(OutOfMemory),
            Ok(()) | Err(KernelFault::Errno(_)) => Ok(()),
        }
    }

    /// Bytes in a file of the image.
    #[tactic(auto, unfolding(crate::specs::Machine::set_bytes))]
    fn set_bytes(
        &mut self,
        alloc: Global,
        path: &[u8],
        offset: u64,
        bytes: &[u8],
    ) -> Result<(), OutOfMemory>
        ensures machine { OnOk result (self.new ≡ set_bytes self.old path.now offset bytes.now) }
        ensures calls { self.new.calls ≡ self.old.calls }
    {
        match self.world.kernel.image_bytes(alloc, path, offset, bytes) {
            Err(KernelFault::OutOfMemory) => Err(OutOfMemory),
            Ok(()) | Err(KernelFault::Errno(_)) => Ok(()),
        }
    }

    /// A lock of another process on a file of the image.
    #[tactic(auto, unfolding(crate::specs::Machine::set_lock))]
    fn set_lock(
        &mut self,
        path: &[u8],
        write: bool,
        start: u64,
        length: u64,
        pid: u32,
    ) -> Result<(), OutOfMemory>
        ensures machine { OnOk result (self.new ≡ set_lock self.old path.now write start length pid) }
        ensures calls { self.new.calls ≡ self.old.calls }
    {
        let locked = self
            .world
            .kernel
            .image_lock(path, write, start, length, pid);
        match locked {
            Err(KernelFault::OutOfMemory) => Err(OutOfMemory),
            Ok(()) | Err(KernelFault::Errno(_)) => Ok(()),
        }
    }

    /// Bytes in mapped pages, whatever their rights.
    #[tactic(auto, unfolding(crate::specs::Machine::poke))]
    fn poke(&mut self, at: u32, bytes: &[u8])
        ensures machine { self.new ≡ poke self.old at bytes.now }
        ensures calls { self.new.calls ≡ self.old.calls }
    {
        let _is_mapped = self.world.memory.poke(at, bytes).is_ok();
    }

    /// One call. A process that has ended serves none.
    #[tactic(auto, unfolding(crate::specs::Machine::call))]
    fn call(
        &mut self,
        alloc: Global,
        out: &mut Vec<u8>,
        registers: &Registers,
    ) -> Result<(), OutOfMemory>
        requires { self.old.calls < 2 ^ 63 }
        ensures done { OnOk result (Did (call self.old registers.now) self.new out.old.items out.new.items) }
        ensures calls { self.new.calls ≡ self.old.calls + 1 }
    {
        self.calls += 1;
        if self.world.kernel.ended().is_some() {
            return put_gone(alloc, out, self.calls);
        }
        self.world.memory.clear_changes();
        let after = trap_by_kind(alloc, &mut self.world, registers)?;
        put_called(alloc, out, self.calls, registers, &after)?;
        put_changes(alloc, out, &self.world.memory)?;
        put_end(alloc, out, self.world.kernel.ended())
    }

    /// Both clocks move, also after the end of the process.
    #[tactic(auto, unfolding(crate::specs::Machine::advance))]
    fn advance(&mut self, nanos: u64)
        ensures machine { self.new ≡ advance self.old nanos }
        ensures calls { self.new.calls ≡ self.old.calls }
    {
        self.world.kernel.advance(nanos);
    }

    /// A signal that another process sends. A process that has ended gets none.
    #[tactic(auto, unfolding(crate::specs::Machine::post))]
    fn post(&mut self, info: &SigInfo)
        requires low { 1 ≤ info.now.signal }
        requires high { info.now.signal ≤ 64 }
        ensures machine { self.new ≡ post self.old info.now }
        ensures calls { self.new.calls ≡ self.old.calls }
    {
        if self.world.kernel.ended().is_none() {
            self.world.kernel.post(info);
        }
    }

    /// What a record does.
    pub fn apply(
        &mut self,
        alloc: Global,
        out: &mut Vec<u8>,
        entry: Record,
    ) -> Result<(), OutOfMemory>
        requires calls { self.old.calls < 2 ^ 63 }
        requires range { IsInRange (line_of entry) }
        ensures done { OnOk result (Did (applied self.old (line_of entry)) self.new out.old.items out.new.items) }
        ensures calls { self.new.calls ≤ self.old.calls + 1 }
    {
        match entry {
            Record::Header { abi } => self.set_kind(abi),
            Record::Clock { real, monotonic } => self.set_clock(real, monotonic),
            Record::Who { owner, privileged } => self.set_who(&owner, privileged),
            Record::Usage { usage } => self.set_usage(&usage),
            Record::Restorer { address } => self.set_restorer(address),
            Record::Page {
                at,
                writable,
                bytes,
            } => self.set_page(at, writable, &bytes)?,
            Record::Dir { path, inode } => self.set_directory(alloc, path.as_slice(), inode)?,
            Record::File { path, inode, size } => self.set_file(
                alloc,
                path.as_slice(),
                inode,
                size,
            )?,
            Record::Bytes {
                path,
                offset,
                bytes,
            } => self.set_bytes(alloc, path.as_slice(), offset, bytes.as_slice())?,
            Record::Lock {
                path,
                write,
                start,
                length,
                pid,
            } => self.set_lock(path.as_slice(), write, start, length, pid)?,
            Record::Poke { at, bytes } => self.poke(at, &bytes),
            Record::Call { registers } => self.call(alloc, out, &registers)?,
            Record::Advance { nanos } => self.advance(nanos),
            Record::Post { info } => self.post(&info),
            Record::Show => put_state(alloc, out, self.kind, &self.world)?,
        }
        Ok(())
    }
}
