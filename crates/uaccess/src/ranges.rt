// Ranges of user memory, as `user_range_ok` of r9's uaccess.rs, which follows Plan 9's validaddr in port/fault.c. A page's frame is
// found by the table that the check of the book has left (`sound::prepare`).

ghost use Rattle.std.specs.Prelude.{◌≡◌, List, ℕ, ◌≤◌};
ghost use Rattle.spec.specs.Numbers.{SetupOk, page_down};
ghost use Rattle.spec.specs.Book.{frame_of};
ghost use Rattle.spec.specs.Frames.{mem_of, store};
ghost use Rattle.spec.specs.Access.{cell_ok, access};

use crate::pages::UserPages;

impl UserPages<'_> {
    // The frame of the page that holds an address. The table answers; the book is there for the contract alone.
    pub fn frame_at(&self, va: u64) -> Option<usize>
        ensures { result ≡ frame_of self.now.book.now self.now.number (page_down va) }
    {
        sound::frame_at(self.lookup, self.number as usize, mem::page_down(va))
    }

    // Whether user mode could make the access to the page that holds an address, as `user_page_ok`.
    #[tactic(auto, using(crate::proofs::Found::frame_there))]
    fn user_page_ok(&self, va: u64, write: bool) -> bool
        ensures { (frames : List ℕ) → result ≡ cell_ok write (mem_of (store frames self.now.book.now) self.now.number va) }
    {
        let Some(k) = self.frame_at(va) else {
            return false;
        };
        let place = (self.number - 1) as usize;
        !write || book::perm_of(self.book[17 * k + place]) == spec::DATA
    }

    // Whether user mode could make the access to every byte from `addr` up to `addr + len`, or the address of the lowest that it couldn't:
    // one below the top of the user address space whose page isn't mapped for the access, or the top, if the range reaches past it. A
    // range that starts above the top is bad at its start; another of no bytes is fine.
    pub fn user_range_ok(&self, addr: u64, len: u64, write: bool) -> Result<(), u64>
        ensures { (frames : List ℕ) → result ≡ access self.now.setup (mem_of (store frames self.now.book.now) self.now.number) write addr len }
    {
        let top = self.setup.uaddrtop;
        if addr > top {
            return Err(addr);
        }
        if len == 0 {
            return Ok(());
        }
        let room = top - addr;
        let end = addr + len.min(room);
        // A `for` over `step_by` would want a measure too, and a list of the pages so far: no plainer.
        let mut va = mem::page_down(addr);
        while va < end {
            if !self.user_page_ok(va, write) {
                return Err(va.max(addr));
            }
            va += spec::PAGE_SIZE_4K;
        }
        if len > room {
            return Err(top);
        }
        Ok(())
    }
}
