//! A world is opened for C, and its desks are made into the caller's handles.

ghost use Rattle.std.specs.Prelude.{◌≡◌, None};
ghost use Rattle.ww_c.specs.Exports.{IsOpenCall, IsSeatCall};

use crate::codes::{EINVAL, ENOMEM, no_desk};
use crate::slot::Handle;
use crate::slot::world::OfficeHandle;
use std::alloc::Global;
use ww_queue::Kind;
use ww_steps::{Office, OpenFault};

/// Opens a world with this many locks of a kind (0 Wound-Wait, 1 Wait-Die), and with so many seats, none of which has a desk
/// yet.
#[unsafe(no_mangle)]
pub extern "C" fn ww_open_world_(
    alloc: Global,
    kind: u32,
    locks: u32,
    left: u64,
    seats: u16,
    world: &mut OfficeHandle,
) -> i32
    ensures { IsOpenCall kind locks left seats world.old.slot.office result world.new.slot.office }
{
    let kind = match kind {
        0 => Kind::WoundWait,
        1 => Kind::WaitDie,
        _ => return EINVAL,
    };
    if !world.is_empty() {
        return EINVAL;
    }
    match Office::open(alloc, kind, locks, seats, left) {
        Ok(office) => match Box::new(alloc, office) {
            Ok(office) => {
                world.put(office);
                0
            }
            Err(_) => ENOMEM,
        },
        Err(OpenFault::BadLocks | OpenFault::BadSeats | OpenFault::BadContexts) => EINVAL,
        Err(OpenFault::NoMemory) => ENOMEM,
    }
}

/// Makes the desk of the seat with this number, and puts it into an empty handle.
#[unsafe(no_mangle)]
pub extern "C" fn ww_open_seat_(
    alloc: Global,
    world: &mut OfficeHandle,
    number: u16,
    seat: &mut Handle,
) -> i32
    ensures { IsSeatCall number world.old.slot.office seat.old.slot.desk result world.new.slot.office seat.new.slot.desk }
{
    if !seat.is_empty() {
        return EINVAL;
    }
    let Some(mut office) = world.take(alloc) else {
        return EINVAL;
    };
    let made = office.desk(alloc, number);
    world.put(office);
    match made {
        Ok(desk) => {
            seat.put(desk);
            0
        }
        Err(why) => no_desk(why),
    }
}

/// No more desks are made of it. The world goes with the last of those that were made.
#[unsafe(no_mangle)]
pub extern "C" fn ww_close_world_(alloc: Global, world: &mut OfficeHandle)
    ensures { world.new.slot.office ≡ None }
{
    let _office = world.take(alloc);
}
