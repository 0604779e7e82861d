//! What C keeps of a world.
ghost use Rattle.std.specs.Prelude.{◌≡◌, ◌==◌, Option, Some, None, IfSome, IfNone, true, not};
ghost use Rattle.ww_steps.specs.contracts.opening.Office.{the_row};
ghost use Rattle.ww_c.specs.Offices.{office_coded, office_owns, has_office};

use super::parts::Parts;
use std::alloc::Global;
use std::marker::Model;
use std::mem;
use ww_steps::Office;

/// An office on the heap by its address, or nothing.
#[repr(C)]
#[derive(Drop)]
pub struct OfficeSlot {
    at: *mut u8,
    alloc: Global,
    pub ghost office: { Option the_row.Denot } by { office_coded },
}

impl Model for OfficeSlot {
    ghost also_owns = { λ s. office_owns s.alloc s.at s.office };
}

impl OfficeSlot {
    fn empty(alloc: Global) -> OfficeSlot
        ensures { result.office ≡ None }
    {
        OfficeSlot {
            at: std::ptr::null_mut(),
            alloc,
        }
    }

    fn of_parts(parts: Parts<Office, Global>) -> OfficeSlot
        ensures { result.office ≡ Some parts.value }
    {
        let Parts { ptr, alloc } = parts;
        OfficeSlot {
            at: ptr as *mut u8,
            alloc,
        }
    }

    fn into_parts(self) -> Parts<Office, Global>
        requires { has_office self.office ≡ true }
        ensures { Some result.value ≡ self.office }
    {
        let OfficeSlot { at, alloc } = self;
        Parts {
            ptr: at as *mut Office,
            alloc,
        }
    }
}

/// What C declares as `struct { void *at; uint32_t is_open; }`.
#[repr(C)]
#[derive(Drop)]
pub struct OfficeHandle {
    pub(crate) slot: OfficeSlot,
    is_open: u32,
    ghost full: { has_office slot.office ≡ not (is_open == 0) },
}

impl OfficeHandle {
    /// Whether it has no office.
    pub(crate) fn is_empty(&self) -> bool
        ensures { result ≡ not (has_office self.now.slot.office) }
    {
        self.is_open == 0
    }

    /// Takes the office out.
    pub fn take(&mut self, alloc: Global) -> Option<Box<Office, Global>>
        ensures some { IfSome result (λ office. self.old.slot.office ≡ Some office.value) }
        ensures none { IfNone result (self.old.slot.office ≡ None) }
        ensures empty { self.new.slot.office ≡ None }
    {
        if self.is_open == 0 {
            return None;
        }
        let was = mem::replace(
            self,
            OfficeHandle {
                slot: OfficeSlot::empty(alloc),
                is_open: 0,
            },
        );
        let OfficeHandle { slot, is_open: _ } = was;
        Some(slot.into_parts().into_box())
    }

    /// Puts an office in.
    pub fn put(&mut self, office: Box<Office, Global>)
        ensures { self.new.slot.office ≡ Some office.value }
    {
        *self = OfficeHandle {
            slot: OfficeSlot::of_parts(Parts::of(office)),
            is_open: 1,
        };
    }
}

unsafe impl Send for OfficeSlot {}
