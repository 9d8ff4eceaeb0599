// The table that is searched, by its rows, and what the search notes of them.
ghost use Rattle.grid.specs.Below.{Strides};
ghost use Rattle.search.specs.Layers.{Searchable};

use super::Terms;

// For each row its units as a word, and the most and the least that is paid there.
#[derive(Clone, Copy)]
pub(crate) struct Rows<'a> {
    pub(crate) terms: Terms,
    pub(crate) units: &'a [u16],
    pub(crate) strides: [usize; 4],
    pub(crate) held: &'a [u32; 128],
    pub(crate) caps: &'a [u32; 128],
    pub(crate) floors: &'a [u32; 128],
    ghost searchable: { Searchable terms units.now held.now caps.now floors.now },
    ghost strides_are: { Strides units.now strides },
}
