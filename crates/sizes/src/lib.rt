// Sizes of a contract's parts.
#![tactic(auto)]

ghost use Rattle.std.specs.Prelude.{◌≡◌, ◌<◌, ◌≤◌, ◌↔◌, length, IsSome, IfSome};
ghost use Rattle.sizes.specs.Units.{units_few};

// All units together; None for more than eight items.
pub fn sum_units(units: &[u16]) -> Option<usize>
    ensures variant { IsSome result ↔ (length units.now ≤ 8) }
    ensures value { IfSome result (λ n. n ≡ units_few units.now) }
    ensures bound { IfSome result (λ n. n < 524288) }
{
    if 8 < units.len() {
        return None;
    }
    Some(units.iter().map(|&u| usize::from(u)).sum())
}
