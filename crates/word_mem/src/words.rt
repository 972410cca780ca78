// A row of words behind a pointer: the only pointer of the product.
ghost use base.Fml.{Fml};
ghost use denote.RawPtr.{Ptr};
ghost use Rattle.std.specs.Prelude.{◌≡◌, ℕ, ◌^◌, ◌<◌, Bool, true, false, List, length, slice_index, slice_index_or, slice_set, IfSome};
ghost use Rattle.word_mem.specs.Ownership.{block_of_words, words_own, words_lent};

use std::alloc::Allocator;
use std::marker::{Model, PhantomData};

// `items` has a number for each place, and `filled` says which places hold theirs. A place that was never written holds
// nothing that can be read.
pub struct Words {
    ptr: *mut u64,
    len: usize,
    pub ghost items: { List ℕ },
    pub ghost filled: { List Bool },
    pub ghost ok: { (len ≡ length items) × (len ≡ length filled) },
}

impl Model for Words {
    ghost also_owns = { λ w. words_own w.ptr w.len w.items w.filled };

    ghost also_shares = { λ w _ κ. words_lent w.ptr w.len w.items w.filled κ };
}

// The right to give the block of these words back.
pub struct Lease<A: Allocator> {
    marker: PhantomData<A>,
    ghost alloc: { A },
    ghost ptr: { Ptr },
    ghost len: { ℕ },
}

impl<A: Allocator> Model for Lease<A> {
    ghost also_owns = { λ l. A.dealloc_token l.alloc (block_of_words l.len) l.ptr };
}

impl Words {
    // Places that hold nothing yet.
    pub fn new<A: Allocator>(alloc: &A, len: usize) -> Option<(Words, Lease<A>)>
        requires { len < 2 ^ 60 }
        ensures { IfSome result (λ p. (p.0.len ≡ len) × (p.1.alloc ≡ alloc.now) × (p.1.ptr ≡ p.0.ptr) × (p.1.len ≡ len)) }
    {
        match alloc.allocate(len * 8, 8) {
            Ok(block) => {
                let ptr = block as *mut u64;
                let marker = PhantomData;
                Some((Words { ptr, len }, Lease { marker }))
            }
            Err(_) => None,
        }
    }

    pub fn free<A: Allocator>(self, lease: Lease<A>, alloc: &A)
        requires { (lease.alloc ≡ alloc.now) × (lease.ptr ≡ self.ptr) × (lease.len ≡ self.len) }
    {
        let Words { ptr, len } = self;
        let Lease { marker: _ } = lease;
        unsafe { alloc.deallocate(ptr as *mut u8, len * 8, 8) }
    }

    #[inline]
    pub fn get(&self, at: usize) -> u64
        requires { (at < self.now.len) × (slice_index_or self.now.filled at false ≡ true) }
        ensures { result ≡ slice_index self.now.items at }
    {
        unsafe { self.ptr.add(at).read() }
    }

    #[inline]
    pub fn put(&mut self, at: usize, w: u64)
        requires { at < self.old.len }
        ensures { (self.new.ptr ≡ self.old.ptr) × (self.new.len ≡ self.old.len) × (self.new.items ≡ slice_set self.old.items at w)
            × (self.new.filled ≡ slice_set self.old.filled at true) }
    {
        unsafe { self.ptr.add(at).write(w) }
    }
}
