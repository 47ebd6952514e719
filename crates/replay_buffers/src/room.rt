// Parts of lent buffers. No place and no size that a function is given has to fit: what does not is cut to what there is.
ghost use Rattle.std.specs.Prelude.{◌≡◌, ◌-◌, ◌≤◌, length, take, drop};

// The items from `at` up to `end`.
pub fn part<T>(items: &[T], at: usize, end: usize) -> &[T]
    ensures { result.now ≡ take (end - at) (drop at items.now) }
{
    items.get(at..end.min(items.len())).unwrap_or_default()
}

// The same, to be written.
pub fn lent<T>(items: &mut [T], at: usize, end: usize) -> &mut [T]
    ensures { result.now ≡ take (end - at) (drop at items.old) }
{
    let stop = end.min(items.len());
    items.get_mut(at..stop).unwrap_or_default()
}

// Moves the bytes from `at` up to `end` to the front, and answers how many these are.
pub fn shift(bytes: &mut [u8], at: usize, end: usize) -> usize
    ensures front { take result bytes.new ≡ take (end - at) (drop at bytes.old) }
    ensures within { result ≤ length bytes.new }
{
    let stop = end.min(bytes.len());
    let start = at.min(stop);
    bytes.copy_within(start..stop, 0);
    stop - start
}
