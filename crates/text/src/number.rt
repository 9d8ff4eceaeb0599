// Bytes and decimal numbers, put into an area.
ghost use Rattle.std.specs.Prelude.{◌≡◌, ◌+◌, ◌≤◌, ◌<◌, length};
ghost use Rattle.area.specs.Puts.{Puts};
ghost use Rattle.text.specs.Text.{decimal, field};

// Copies bytes into an area, and answers where they end.
pub(crate) fn put_bytes(bytes: &[u8], out: &mut [u8], at: usize) -> usize
    requires { at + length bytes.now ≤ length out.old }
    ensures { Puts bytes.now out.old at result out.new }
{
    let end = at + bytes.len();
    out[at..end].copy_from_slice(bytes);
    end
}

// Puts a number and the byte after it into an area, and answers where they end.
pub(crate) fn put_number(n: u32, after: u8, out: &mut [u8], at: usize) -> usize
    requires { at + length (decimal n) < length out.old }
    ensures puts { Puts (field n after) out.old at result out.new }
    ensures value { result ≡ at + length (decimal n) + 1 }
{
    let mut digits = [0u8; 20];
    let count = io::decimal(u64::from(n), &mut digits);
    let last = put_bytes(&digits[..count], out, at);
    out[last] = after;
    last + 1
}
