// The types of an area's entries, each with its bytes, lowest first.
ghost use Rattle.std.specs.Prelude.{◌≡◌, ℕ, ◌+◌, ◌^◌, ◌<◌, ◌≤◌, length};
ghost use Rattle.std.proofs.lemmas.List.Edits.{sets};
ghost use Rattle.std.proofs.Common.{rules};
ghost use Rattle.area.specs.Entries.{num, digits};

pub trait Entry: Copy {
    // how many bytes it takes
    ghost BYTES: { ℕ };

    const BYTES: usize;

    // the number that it is
    ghost number: { Self → ℕ };

    // The number 0.
    fn zero() -> Self
        ensures { number result ≡ 0 };

    // The number in the bytes from byte i on.
    fn load(s: &[u8], i: usize) -> Self
        requires { i + BYTES ≤ length s.now }
        ensures { number result ≡ num BYTES s.now i };

    // Stores it in the bytes from byte i on.
    fn save(self, s: &mut [u8], i: usize)
        requires { i + BYTES ≤ length s.old }
        ensures stored { s.new ≡ sets s.old i (digits BYTES (number self)) }
        ensures fits { number self < 256 ^ BYTES };

    ghost some_bytes: { 0 < BYTES };
}

impl Entry for u16 {
    ghost BYTES = { 2 };

    const BYTES: usize = 2;

    ghost number = { λ n. n };

    ghost some_bytes = { Prim.search rules };

    fn zero() -> u16 {
        0
    }

    fn load(s: &[u8], i: usize) -> u16 {
        u16::from_le_bytes([s[i], s[i + 1]])
    }

    fn save(self, s: &mut [u8], i: usize) {
        s[i..i + 2].copy_from_slice(&self.to_le_bytes());
    }
}

impl Entry for u32 {
    ghost BYTES = { 4 };

    const BYTES: usize = 4;

    ghost number = { λ n. n };

    ghost some_bytes = { Prim.search rules };

    fn zero() -> u32 {
        0
    }

    fn load(s: &[u8], i: usize) -> u32 {
        u32::from_le_bytes([s[i], s[i + 1], s[i + 2], s[i + 3]])
    }

    fn save(self, s: &mut [u8], i: usize) {
        s[i..i + 4].copy_from_slice(&self.to_le_bytes());
    }
}

impl Entry for u64 {
    ghost BYTES = { 8 };

    const BYTES: usize = 8;

    ghost number = { λ n. n };

    ghost some_bytes = { Prim.search rules };

    fn zero() -> u64 {
        0
    }

    fn load(s: &[u8], i: usize) -> u64 {
        u64::from_le_bytes([
            s[i],
            s[i + 1],
            s[i + 2],
            s[i + 3],
            s[i + 4],
            s[i + 5],
            s[i + 6],
            s[i + 7],
        ])
    }

    fn save(self, s: &mut [u8], i: usize) {
        s[i..i + 8].copy_from_slice(&self.to_le_bytes());
    }
}
