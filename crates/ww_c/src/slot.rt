//! What C keeps of a seat, and of a world.
ghost use Rattle.std.specs.Prelude.{◌≡◌, ◌<◌, ◌==◌, Option, Some, None, IfSome, IfNone, true, not};
ghost use Rattle.std.proofs.Props.{props};
ghost use Rattle.ww_steps.specs.Situations.{IsReady, IsPlain, HasReleasedAll};
ghost use Rattle.ww_steps.specs.contracts.desk.Desk.{the_row};
ghost use Rattle.ww_c.specs.Modes.{knows, is_ready, is_plain, is_bare, is_alone, has_locks};
ghost use Rattle.ww_c.specs.Slots.{slot_owns, slot_coded, is_full};

mod parts;
pub(crate) mod world;

use parts::Parts;
use std::alloc::Global;
use std::marker::Model;
use std::mem;
use ww_steps::Desk;

/// A desk on the heap by its address, or nothing.
#[repr(C)]
#[derive(Drop)]
pub struct Slot {
    at: *mut u8,
    alloc: Global,
    pub ghost desk: { Option the_row.Denot } by { slot_coded },
}

impl Model for Slot {
    ghost also_owns = { λ s. slot_owns s.alloc s.at s.desk };
}

impl Slot {
    ghost use Rattle.std.specs.Borrow.{sem};
    ghost use Rattle.ww_c.specs.Lending.{LendsDesk};

    /// Lends the desk where it lies, so that a call neither empties the slot nor fills it again.
    #[inline(always)]
    pub(crate) fn lend(&mut self) -> &mut Desk
        requires { is_full self.old.desk ≡ true }
        ensures* writes_back { sem 𝓛 (LendsDesk self.entry result) }
        ensures value { Some result.now ≡ self.old.desk }
    {
        unsafe { &mut *(self.at as *mut Desk) }
    }

    fn empty(alloc: Global) -> Slot
        ensures { result.desk ≡ None }
    {
        Slot {
            at: std::ptr::null_mut(),
            alloc,
        }
    }

    fn of_parts(parts: Parts<Desk, Global>) -> Slot
        ensures { result.desk ≡ Some parts.value }
    {
        let Parts { ptr, alloc } = parts;
        Slot {
            at: ptr as *mut u8,
            alloc,
        }
    }

    fn into_parts(self) -> Parts<Desk, Global>
        requires { is_full self.desk ≡ true }
        ensures { Some result.value ≡ self.desk }
    {
        let Slot { at, alloc } = self;
        Parts {
            ptr: at as *mut Desk,
            alloc,
        }
    }
}

/// Of a handle: it has no desk.
pub(crate) const EMPTY: u32 = 0;

/// It has a desk, of which nothing else is known.
pub(crate) const FULL: u32 = 1;

/// Its desk is ready for a context.
pub(crate) const READY: u32 = 2;

/// Its desk has a context that may want a lock.
pub(crate) const PLAIN: u32 = 3;

/// Its desk has a context that has released all that it held.
pub(crate) const BARE: u32 = 4;

/// Its desk has no context, and has taken a lock without one.
pub(crate) const ALONE: u32 = 5;

/// What C declares as `struct { void *at; uint32_t mode, below; }`.
#[repr(C)]
#[derive(Drop)]
pub struct Handle {
    pub(crate) slot: Slot,
    /// What is known of the desk, by the numbers above, so that the next call need not look.
    pub(crate) mode: u32,
    /// Where that context may want a lock, it may want each below this number that it doesn't hold; else it is 0.
    pub(crate) below: u32,
    ghost full: { is_full slot.desk ≡ not (mode == 0) },
    ghost ready: { mode ≡ 2 → knows is_ready slot.desk ≡ true },
    ghost plain: { mode ≡ 3 → knows is_plain slot.desk ≡ true },
    ghost locks: { 0 < below → knows (has_locks below) slot.desk ≡ true },
    ghost only_plain: { 0 < below → mode ≡ 3 },
    ghost bare: { mode ≡ 4 → knows is_bare slot.desk ≡ true },
    ghost alone: { mode ≡ 5 → knows is_alone slot.desk ≡ true },
}

impl Handle {
    /// Whether it has no desk.
    #[inline(always)]
    pub(crate) fn is_empty(&self) -> bool
        ensures { result ≡ not (is_full self.now.slot.desk) }
    {
        self.mode == EMPTY
    }

    /// Takes the desk out.
    pub fn take(&mut self, alloc: Global) -> Option<Box<Desk, Global>>
        ensures some { IfSome result (λ desk. self.old.slot.desk ≡ Some desk.value) }
        ensures none { IfNone result (self.old.slot.desk ≡ None) }
        ensures empty { self.new.slot.desk ≡ None }
    {
        if self.mode == EMPTY {
            return None;
        }
        let was = mem::replace(
            self,
            Handle {
                slot: Slot::empty(alloc),
                mode: EMPTY,
                below: 0,
            },
        );
        let Handle {
            slot,
            mode: _,
            below: _,
        } = was;
        Some(slot.into_parts().into_box())
    }

    /// Puts a desk in.
    pub fn put(&mut self, desk: Box<Desk, Global>)
        ensures { self.new.slot.desk ≡ Some desk.value }
    {
        *self = Handle {
            slot: Slot::of_parts(Parts::of(desk)),
            mode: FULL,
            below: 0,
        };
    }
}

unsafe impl Send for Slot {}
