//! An allocator that counts the requests for memory, their bytes and the blocks in use, and refuses a chosen
//! request.
ghost use Rattle.std.specs.Prelude.{◌≡◌, Option, None};

use glob_replay::ration::{Memory, Ration};
use std::alloc::{AllocError, Allocator, Global};

/// The allocator `inner`, whose requests are first counted by `ration`, which may refuse them. Growing or shrinking a
/// block is one request; freeing a block does not count. A reference to it is an allocator, too.
#[derive(Debug, Drop)]
pub struct Rationed<A> {
    pub ration: Ration,
    pub inner: A,
}

impl Memory for &Rationed<Global> {
    fn ration(&self) -> &Ration {
        &self.ration
    }

    fn inner(&self) -> Global {
        self.inner
    }
}

impl<A> Rationed<A> {
    /// The allocator `inner`, with no request refused.
    pub fn ample(inner: A) -> Self
        ensures { result.ration ≡ None }
    {
        Rationed::refusing(None, inner)
    }

    /// The allocator `inner`. If there is a number, the request with this number, counted from 1, is refused.
    pub fn refusing(refused: Option<u64>, inner: A) -> Self
        ensures { result.ration ≡ refused }
    {
        Rationed {
            ration: Ration::new(refused),
            inner,
        }
    }
}

unsafe impl<A: Allocator> Allocator for Rationed<A> {
    ghost dealloc_token = { λ rationed. A.dealloc_token rationed.inner };

    fn allocate(&self, size: usize, align: usize) -> Result<*mut u8, AllocError> {
        if self.ration.refuses_next(size) {
            return Err(AllocError);
        }
        self.inner.allocate(size, align)
    }

    unsafe fn deallocate(&self, ptr: *mut u8, size: usize, align: usize) {
        self.ration.count_return();
        unsafe { self.inner.deallocate(ptr, size, align) }
    }
}
