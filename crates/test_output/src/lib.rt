// Text, numbers and bytes on standard output, for the test programs. The module notation has the form in which bytes are said, docs/TESTS.md that of a case; the module
// recut has the words of the program test_recut.
// No contract states what is written: a public function here answers nothing and changes nothing that is lent. So it writes by the crate io, whose answers may be
// passed over, and no type has a Display: that answers an error, which would have to be passed on.
#![tactic(auto)]

mod notation;
pub mod recut;

ghost use Rattle.std.specs.Prelude.{◌≡◌};

// The file descriptor of standard output.
const STDOUT: i32 = 1;

// Text as it is.
pub fn text(s: &[u8])
    ensures { result ≡ tt }
{
    io::write_all(STDOUT, s);
}

// A number.
pub fn count(x: usize)
    ensures { result ≡ tt }
{
    io::print_decimal(STDOUT, x as u64);
}

// A number with words before it.
pub fn numbered(words: &[u8], x: usize)
    ensures { result ≡ tt }
{
    text(words);
    count(x);
}

pub fn line_end()
    ensures { result ≡ tt }
{
    text(b"\n");
}

// The answer to what is no case.
pub fn bad()
    ensures { result ≡ tt }
{
    text(b"bad case");
}

// One text or the other.
fn either(x: bool, yes: &[u8], no: &[u8]) {
    text(if x { yes } else { no });
}

pub fn truth(x: bool)
    ensures { result ≡ tt }
{
    either(x, b"true", b"false");
}

// Says the word: it compares nothing.
pub fn same(x: bool)
    ensures { result ≡ tt }
{
    either(x, b"same", b"different");
}

// Bytes, in the notation of the cases.
pub fn bytes(s: &[u8])
    ensures { result ≡ tt }
{
    notation::say(s);
}
