// A ladder's rises where they stand in its record.
ghost use Rattle.record.specs.Find.{Finds};
ghost use Rattle.record.specs.View.Head.{head_of, LadderHead};

use super::head::Head;
use super::segments::find_segments;
use super::{Found, Ladder};
use contract::Refusal;

// Finds what follows the head of a ladder.
pub(crate) fn find_ladder(s: &[u8], h: Head) -> Result<Found, Refusal>
    requires { LadderHead s.now (head_of h) }
    ensures { Finds s.now result }
{
    let run = find_segments::<false>(s, h.next)?;
    Ok(Found::Ladder(Ladder {
        price: h.price,
        supplier: h.supplier,
        buyer: h.buyer,
        first: run.first,
        count: run.count,
        cost: run.cost as u32,
        value: run.value as u32,
    }))
}
