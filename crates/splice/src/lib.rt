// Bytes into a lent buffer: the one copy of the library, and its one comparison.
#![tactic(auto)]

ghost use Rattle.std.specs.Prelude.{◌≡◌, ◌*◌, ◌≤◌, length};
ghost use Rattle.bluebook.specs.Layouts.{Octets};
ghost use Rattle.refusal.specs.Told.{told};
ghost use Rattle.splice.specs.Laid.{same_bytes};
ghost use Rattle.splice.specs.Writing.{room_at, Wrote};

use refusal::Refusal;

// Copies all of src over dst, which is as long, as the first W bytes and then the last W: LLVM makes it two loads and two stores.
fn ends<const W: usize>(dst: &mut [u8], src: &[u8])
    requires same { length src.now ≡ length dst.old }
    requires within { (W ≤ length src.now) × (length src.now ≤ 2 * W) }
    ensures { dst.new ≡ src.now }
{
    *dst.first_chunk_mut::<W>().unwrap() = *src.first_chunk::<W>().unwrap();
    *dst.last_chunk_mut::<W>().unwrap() = *src.last_chunk::<W>().unwrap();
}

// The same of any length, by the library's method, whose clause on the lengths this is: a call of C's `memmove`. It is not inlined, so that who copies few
// bytes saves no registers for it.
#[inline(never)]
fn long(dst: &mut [u8], src: &[u8])
    requires { length src.now ≡ length dst.old }
    ensures { dst.new ≡ src.now }
{
    dst.copy_from_slice(src);
}

// The same, by the way that is fastest for the length. The tests are a tree, which takes fewer instructions than the table of jumps of a `match`.
// With `copy_from_slice` alone, whose clause on the lengths this is, an LV was written with more instructions than the Rust takes.
fn lay(dst: &mut [u8], src: &[u8])
    requires { length src.now ≡ length dst.old }
    ensures { dst.new ≡ src.now }
{
    let n = src.len();
    if n <= 15 {
        if 4 <= n {
            if 8 <= n {
                return ends::<8>(dst, src);
            }
            return ends::<4>(dst, src);
        }
        if 2 <= n {
            return ends::<2>(dst, src);
        }
        if n == 1 {
            dst[0] = src[0];
        }
        return;
    }
    if n <= 32 {
        return ends::<16>(dst, src);
    }
    long(dst, src);
}

// Copies all of src over dst from the place at on. 15 where the place is past the end, then 2, counted from the place.
pub fn put(dst: &mut [u8], at: usize, src: &[u8]) -> Result<usize, Refusal>
    ensures { Wrote at (room_at at (length dst.old) src.now) (told result) dst.old dst.new }
{
    if dst.len() < at {
        return Err(Refusal::PlacePastEnd(at));
    }
    let found = dst.len() - at;
    let expected = src.len();
    if found < expected {
        return Err(Refusal::ToSliceTooSmall { found, expected });
    }
    lay(&mut dst[at..at + expected], src);
    Ok(expected)
}

// Whether a and b, which have the same length, hold the same bytes: the first W, and then the last W. LLVM makes these compares of a constant width.
#[tactic(auto, using(crate::proofs::Laws::differ_front, crate::proofs::Laws::alike_front))]
fn alike<const W: usize>(a: &[u8], b: &[u8]) -> bool
    requires same { length a.now ≡ length b.now }
    requires within { (W ≤ length a.now) × (length a.now ≤ 2 * W) }
    ensures { result ≡ same_bytes a.now b.now }
{
    if *a.first_chunk::<W>().unwrap() != *b.first_chunk::<W>().unwrap() {
        return false;
    }
    *a.last_chunk::<W>().unwrap() == *b.last_chunk::<W>().unwrap()
}

// The same of 1 to 32 bytes, by a width that is chosen as in `lay`.
fn few(a: &[u8], b: &[u8]) -> bool
    requires same { length a.now ≡ length b.now }
    requires within { (1 ≤ length a.now) × (length a.now ≤ 32) }
    ensures { result ≡ same_bytes a.now b.now }
{
    let n = a.len();
    if 16 <= n {
        return alike::<16>(a, b);
    }
    if 8 <= n {
        return alike::<8>(a, b);
    }
    if 4 <= n {
        return alike::<4>(a, b);
    }
    if 2 <= n {
        return alike::<2>(a, b);
    }
    alike::<1>(a, b)
}

// Whether a and b hold the same bytes: `==`, by a name that tells a caller's proof `same_bytes`. 1 to 32 bytes go by `few`: `==` makes a call for most of them,
// and compares 8 bytes in more than twice the time.
pub fn same(a: &[u8], b: &[u8]) -> bool
    ensures { result ≡ same_bytes a.now b.now }
{
    let n = a.len();
    if n == b.len() && 1 <= n && n <= 32 {
        return few(a, b);
    }
    a == b
}

// Does nothing. A lent buffer holds octets, and a caller's proof has that from this call: it is a premise of theorems about what is read and written.
pub fn octets(buf: &[u8])
    ensures value { result ≡ tt }
    ensures octets { Octets buf.now }
{
    if 0 < buf.len() {
        let first = buf[0];
    }
}
