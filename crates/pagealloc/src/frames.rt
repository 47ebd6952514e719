// The bytes of frames. A frame is named by its address in the lent bytes, a `PhysAddr`.

ghost use Rattle.std.specs.Prelude.{◌≡◌, ◌+◌, ◌*◌, ◌^◌, ◌≤◌, ◌<◌, length};
ghost use Rattle.spec.specs.Frames.{put};

// The bytes from `at` on become `s`.
pub fn write_phys(frames: &mut [u8], at: mem::PhysAddr, s: &[u8])
    requires { at.0 + length s.now ≤ length frames.old }
    ensures { frames.new ≡ put frames.old at.0 s.now }
{
    let a = at.0 as usize;
    frames[a..a + s.len()].copy_from_slice(s);
}

// The address of frame `k`.
pub fn frame_addr(k: usize) -> mem::PhysAddr
    requires { 4096 * k < 2 ^ 64 }
    ensures { result.0 ≡ 4096 * k }
{
    mem::PhysAddr::new(spec::PAGE_SIZE_4K * (k as u64))
}
