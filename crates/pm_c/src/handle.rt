//! The handle of a session, which C holds by its address.
ghost use Rattle.std.specs.Prelude.{◌≡◌, Bool, Some, None, true, false, MatchOption};
ghost use Rattle.std.specs.Box.Ownership.{box_owns};
ghost use Rattle.pm_c.specs.Held.{held_if, session_coded};
ghost use Rattle.pm_c.specs.declared.session.Session.{Session};

use crate::session::Session;
use std::alloc::{Allocator, Global};
use std::marker::Model;

/// A `Box` as its pointer and its allocator.
pub(crate) struct Parts<T, A: Allocator> {
    ptr: *mut T,
    alloc: A,
    pub(crate) ghost value: { T },
}

impl<T, A: Allocator> Model for Parts<T, A> {
    ghost also_owns = { λ p. box_owns (A.dealloc_token p.alloc) T.row p.ptr p.value };
}

impl<T, A: Allocator> Parts<T, A> {
    /// Returns the parts of a box.
    pub(crate) fn of(b: Box<T, A>) -> Parts<T, A>
    where
        T: Drop,
        ensures { result.value ≡ b.value }
    {
        let (ptr, alloc) = Box::into_raw_with_allocator(b);
        Parts { ptr, alloc }
    }

    /// Returns the box of these parts.
    pub(crate) fn into_box(self) -> Box<T, A>
        ensures { result.value ≡ self.value }
    {
        let Parts { ptr, alloc } = self;
        unsafe { Box::from_raw(alloc, ptr) }
    }
}

/// The box of a session. If it isn't live, it owns nothing, and its pointer may be null. Dropping it while it is live
/// leaks the session.
#[repr(C)]
#[derive(Drop)]
pub struct SessionBox {
    at: *mut u8,
    alloc: Global,
    pub ghost live: { Bool },
    pub ghost value: { Session } by { session_coded },
}

impl Model for SessionBox {
    ghost also_owns = { λ h. held_if h.live h.alloc h.at h.value };
}

impl SessionBox {
    pub(crate) fn of_parts(parts: Parts<Session, Global>) -> SessionBox
        ensures { (result.live ≡ true) × (result.value ≡ parts.value) }
    {
        let Parts { ptr, alloc } = parts;
        SessionBox {
            at: ptr as *mut u8,
            alloc,
        }
    }

    pub(crate) fn into_parts(self) -> Parts<Session, Global>
        requires { self.live ≡ true }
        ensures { result.value ≡ self.value }
    {
        let SessionBox { at, alloc } = self;
        Parts {
            ptr: at as *mut Session,
            alloc,
        }
    }
}

/// The handle of a session on the heap, in C `struct pm_session { void *at; bool live; }`. If it isn't live, it owns
/// nothing. Dropping it while it is live leaks the session.
#[repr(C)]
#[derive(Drop)]
pub struct PmSession {
    pub inside: SessionBox,
    pub live: bool,
    ghost same_live: { inside.live ≡ live },
}

impl PmSession {
    /// Returns the handle of the session.
    pub(crate) fn of(session: Box<Session, Global>) -> PmSession
        ensures live { result.live ≡ true }
        ensures value { result.inside.value ≡ session.value }
    {
        PmSession {
            inside: SessionBox::of_parts(Parts::of(session)),
            live: true,
        }
    }

    /// Returns the session of a live handle, and `None` for any other handle.
    pub(crate) fn open(self) -> Option<Box<Session, Global>>
        ensures { MatchOption result (self.live ≡ false)
            (λ session. (self.live ≡ true) × (session.value ≡ self.inside.value)) }
    {
        if self.live {
            Some(self.inside.into_parts().into_box())
        } else {
            None
        }
    }
}
