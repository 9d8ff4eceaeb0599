// The most and the least that is paid at each row, by its bounds.
ghost use Rattle.std.specs.Prelude.{◌≡◌, ℕ, ◌<◌, ◌≤◌, length, get_or, replicate};
ghost use Rattle.search.specs.Layers.{Each};

// Of each row the limit by its cell. It is written where it stands, since an array that is returned would be copied.
pub(crate) fn each_row<F: Fn(u32) -> u32>(cells: &[u32], limit: F, limits: &mut [u32; 128])
    requires { ((a : ℕ) → a < length cells.now → F.pre limit (get_or cells.now a 0)) × (length cells.now ≤ 128) × (limits.old ≡ replicate 128 0) }
    ensures { Each (F.post limit) cells.now limits.new (length cells.now) }
{
    for (a, &cell) in cells.iter().enumerate() {
        limits[a] = limit(cell);
    }
}
