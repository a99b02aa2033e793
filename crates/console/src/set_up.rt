// Set-up lines, done.
use crate::begin;
use crate::undone::{NotDone, Undone};
use basics::handed_back::HandedBack;
use drive::defect::Defect;
use drive::geometry::Track;
use machine::machine::Machine;
use script::line::{DefectAt, SetUp};
use std::fs;

// a number too large for its type is off the drive, and so is the largest of the type
pub fn track(cylinder: u32, head: u32) -> Track {
    Track {
        cylinder: cylinder.min(0xFFFF) as u16,
        head: head.min(0xFF) as u8,
    }
}

fn defect(at: DefectAt) -> Defect {
    Defect {
        field: at.field,
        track: track(at.cylinder, at.head),
        place: at.place.min(0xFF) as u8,
    }
}

// Puts into the machine what had to be made or read for it first.
fn put<T: Drop, F: FnOnce(Machine, T) -> Result<Machine, HandedBack<Machine>>>(
    machine: Machine,
    brought: Result<T, NotDone>,
    place: F,
) -> Result<Machine, Undone>
    requires { F.IsAlwaysCallable place }
{
    match brought {
        Ok(brought) => Ok(place(machine, brought)?),
        Err(why) => Err(Undone { machine, why }),
    }
}

fn file(rt: &HostRuntime, name: &str) -> Result<Vec<u8>, NotDone> {
    Ok(fs::read(rt, name)?)
}

pub fn perform(rt: &HostRuntime, machine: Machine, line: SetUp<'_>) -> Result<Machine, Undone> {
    let heap = rt.alloc();
    match line {
        SetUp::StoragePlain { size } => {
            let bytes = begin::storage_bytes(heap, size as usize);
            put(machine, bytes, Machine::plain_storage)
        }
        SetUp::StorageKeyed { keys } => put(
            machine,
            begin::keyed_bytes(heap, keys),
            |machine, (bytes, keys)| machine.keyed_storage(bytes, keys),
        ),
        SetUp::StorageFile { name } => put(machine, file(rt, name), Machine::plain_storage),
        SetUp::PackPlain { name } => put(machine, file(rt, name), Machine::plain_pack),
        SetUp::PackChained { name } => put(machine, file(rt, name), Machine::chained_pack),
        SetUp::PackFresh { heads } => {
            put(machine, begin::pack_bytes(heap, heads), Machine::fresh_pack)
        }
        SetUp::Device { device } => Ok(machine.set_device(device)),
        SetUp::Parity { address } => Ok(machine.mark_parity(address)?),
        SetUp::Unparity { address } => Ok(machine.lift_parity(address)?),
        SetUp::Defect(at) => Ok(machine.mark_defect(defect(at))?),
        SetUp::Undefect(at) => Ok(machine.lift_defect(defect(at))?),
        SetUp::Fresh { cylinder, head } => Ok(machine.fresh_track(track(cylinder, head))?),
    }
}
