// Order bytes: item numbers from 1, then zeros, eight in all.
#![tactic(auto)]

ghost use Rattle.std.specs.Prelude.{◌≡◌, ◌∷◌, ◌&&◌, leb, length, get_or};
ghost use Rattle.exchange.specs.Forms.{occurs};
ghost use Rattle.exchange.specs.Named.{each_once};
ghost use Rattle.order.specs.Bytes.{all_zero, names_each, picked_or, stored_in, first_eight};

// Stores eight order bytes; an area that is too short stays as it was.
pub fn store(order: &mut [u8], bytes: [u8; 8])
    ensures { order.new ≡ stored_in order.old bytes }
{
    if 8 <= order.len() {
        order[..8].copy_from_slice(&bytes);
    }
}

// The first eight bytes of an area; zeros where it is shorter.
pub fn first_eight(order: &[u8]) -> [u8; 8]
    ensures { result ≡ first_eight order.now }
{
    let mut out = [0u8; 8];
    let n = order.len().min(8);
    out[..n].copy_from_slice(&order[..n]);
    out
}

// The amount of the item with a number; `none` if there is no such item.
fn amount_of<T: Copy>(amounts: &[T], number: u8, none: T) -> T
    ensures { result ≡ get_or (none ∷ amounts.now) number none }
{
    if number == 0 {
        return none;
    }
    amounts
        .get(usize::from(number) - 1)
        .copied()
        .unwrap_or(none)
}

// The amounts of the items in order; `none` where a byte names no item.
pub fn pick<T: Copy>(amounts: &[T], order: [u8; 8], none: T) -> [T; 8]
    ensures { result ≡ picked_or none amounts.now order }
{
    order.map(|number| amount_of(amounts, number, none))
}

// How often a number stands among bytes.
fn count(bytes: &[u8], number: u8) -> usize
    ensures { result ≡ occurs number bytes.now }
{
    bytes.iter().filter(|&&b| b == number).count()
}

// Whether each of the items 1 to n stands once.
fn each_once(bytes: &[u8], n: u8) -> bool
    ensures { result ≡ each_once n bytes.now }
{
    for j in 0..n {
        if count(bytes, j + 1) != 1 {
            return false;
        }
    }
    true
}

// Whether all bytes are zero.
fn all_zero(bytes: &[u8]) -> bool
    ensures { result ≡ all_zero bytes.now }
{
    bytes.iter().all(|&b| b == 0)
}

// Whether n is at most 8, and the first eight bytes name each of n items once and are zero after them.
pub fn names_each(order: &[u8], n: usize) -> bool
    ensures { result ≡ (leb n 8 && leb 8 (length order.now) && names_each n order.now) }
{
    if 8 < n || order.len() < 8 {
        return false;
    }
    each_once(&order[..n], n as u8) && all_zero(&order[n..8])
}
