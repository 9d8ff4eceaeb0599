// Little-endian numbers in byte areas, of any width that `Entry` has. A remainder too short for an entry counts as none and stays.
// What lies past the end reads 0, and a store there changes nothing: only `known` asks for an entry that there is, and `Entry` itself for room.
#![tactic(auto)]

ghost use Rattle.std.specs.Prelude.{◌≡◌, ◌+◌, ◌<◌, leb, length, get_or, replicate};
ghost use Rattle.area.specs.Entries.{num_at, put_at, entries, Stored, Cleared};

mod numbers;

pub use numbers::Entry;

// Whether a number at byte i ends within the bytes.
fn has_room<T: Entry>(s: &[u8], i: usize) -> bool
    ensures { result ≡ leb (i + T.BYTES) (length s.now) }
{
    T::BYTES <= s.len() && i <= s.len() - T::BYTES
}

// The number at byte i.
pub fn num<T: Entry>(s: &[u8], i: usize) -> T
    ensures { T.number result ≡ num_at T.BYTES s.now i }
{
    if has_room::<T>(s, i) {
        T::load(s, i)
    } else {
        T::zero()
    }
}

// Stores a number at byte i.
pub fn put<T: Entry>(s: &mut [u8], i: usize, v: T)
    ensures { s.new ≡ put_at T.BYTES s.old i (T.number v) }
{
    if has_room::<T>(s, i) {
        v.save(s, i);
    }
}

// How many entries an area has.
pub fn count<T: Entry>(area: &[u8]) -> usize
    ensures { result ≡ length (entries T.BYTES area.now) }
{
    area.len() / T::BYTES
}

// Entry k of an area.
pub fn entry<T: Entry>(area: &[u8], k: usize) -> T
    ensures { T.number result ≡ get_or (entries T.BYTES area.now) k 0 }
{
    if k < count::<T>(area) {
        known(area, k)
    } else {
        T::zero()
    }
}

// Entry k of an area that has it.
pub fn known<T: Entry>(area: &[u8], k: usize) -> T
    requires { k < length (entries T.BYTES area.now) }
    ensures { T.number result ≡ get_or (entries T.BYTES area.now) k 0 }
{
    T::load(area, k * T::BYTES)
}

// Stores entry k of an area.
pub fn store<T: Entry>(area: &mut [u8], k: usize, v: T)
    ensures { Stored T.BYTES area.old area.new k (T.number v) }
{
    if k < count::<T>(area) {
        v.save(area, k * T::BYTES);
    }
}

// Zeroes a lent part.
pub fn clear(part: &mut [u8])
    ensures { part.new ≡ replicate (length part.old) 0 }
{
    part.fill(0);
}

// Zeroes the entries of an area from entry n on.
pub fn clear_from<T: Entry>(area: &mut [u8], n: usize)
    ensures { Cleared T.BYTES area.old area.new n }
{
    let count = count::<T>(area);
    if n < count {
        clear(&mut area[n * T::BYTES..count * T::BYTES]);
    }
}
