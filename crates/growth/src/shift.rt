ghost use Rattle.std.specs.Prelude.{◌≡◌, ◌+◌, ◌-◌, ◌≤◌, ◌++◌, length, take, drop, replicate, slice_index_or};
ghost use Rattle.std.specs.List.{insert};

// What stands at `k` once `x` is put in at `i`.
fn shifted<T: Copy>(src: &[T], i: usize, x: T, k: usize) -> T
    requires place { i ≤ length src.now }
    requires within { k ≤ length src.now }
    ensures { result ≡ slice_index_or (insert src.now i x) k x }
{
    if k < i {
        src[k]
    } else if k == i {
        x
    } else {
        src[k - 1]
    }
}

/// Writes `src` with `x` put in at `i`.
// Inlined, so that the lengths of a node's arrays are known to the loop.
#[inline(always)]
pub fn shift_in<T: Copy>(src: &[T], i: usize, x: T, out: &mut [T])
    requires place { i ≤ length src.now }
    requires room { length out.old ≡ length src.now + 1 }
    ensures { out.new ≡ insert src.now i x }
{
    for (k, place) in out.iter_mut().enumerate() {
        *place = shifted(src, i, x, k);
    }
}

/// Writes `n` elements of `src` from `from` on, and then `pad`.
pub fn copy_part<T: Copy>(src: &[T], from: usize, n: usize, pad: T, out: &mut [T])
    requires within { from + n ≤ length src.now }
    requires room { n ≤ length out.old }
    ensures { out.new ≡ take n (drop from src.now) ++ replicate (length out.old - n) pad }
{
    for (k, place) in out.iter_mut().enumerate() {
        *place = if k < n { src[from + k] } else { pad };
    }
}
