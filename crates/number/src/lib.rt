// Unsigned big-endian numbers of up to 8 bytes. They are read and written through an array of 8: LLVM makes that one load or one store.
#![tactic(auto)]

ghost use Rattle.std.specs.Prelude.{◌≡◌, ◌≤◌, length};
ghost use Rattle.bluebook.specs.Layouts.{be_bytes};
ghost use Rattle.refusal.specs.Answer.{also};
ghost use Rattle.refusal.specs.Told.{told};
ghost use Rattle.number.specs.Rules.{of_be, read_be, number_test};
ghost use Rattle.splice.specs.Writing.{room_at, Wrote};

use refusal::Refusal;

// The number of at most 8 bytes, read from a copy with zeros in front: the array is what `from_be_bytes` takes.
fn of(v: &[u8]) -> u64
    requires { length v.now ≤ 8 }
    ensures { result ≡ of_be v.now }
{
    let mut b = [0u8; 8];
    let m = 8 - v.len();
    b[m..].copy_from_slice(v);
    u64::from_be_bytes(b)
}

// The number of the bytes v. 5 where they are more than 8.
pub fn read(v: &[u8]) -> Result<u64, Refusal>
    ensures { told result ≡ read_be v.now }
{
    let n = v.len();
    if 8 < n {
        return Err(Refusal::InvalidValueLength(n));
    }
    Ok(of(v))
}

// Whether a number can be written in width bytes: 5 where they are more than 8, then 10 where it does not fit.
pub fn test(number: u64, width: usize) -> Result<(), Refusal>
    ensures { told result ≡ number_test number width }
{
    if 8 < width {
        return Err(Refusal::InvalidValueLength(width));
    }
    if width < 8 {
        if number >> (8 * width) != 0 {
            return Err(Refusal::NumberTooLarge(width));
        }
    }
    Ok(())
}

// Writes a number's width bytes over buf from the place at on: 5, 10, then 15 and 2, counted from the place.
pub fn write(number: u64, width: usize, buf: &mut [u8], at: usize) -> Result<usize, Refusal>
    ensures { Wrote at (also (number_test number width) (room_at at (length buf.old) (be_bytes width number))) (told result) buf.old buf.new }
{
    test(number, width)?;
    let b = number.to_be_bytes();
    let m = 8 - width;
    splice::put(buf, at, &b[m..])
}
