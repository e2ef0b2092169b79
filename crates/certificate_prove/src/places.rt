//! Bits that count.
ghost use Rattle.std.specs.Prelude.{◌≡◌, ◌≢◌, ◌<◌, ◌≤◌, ℕ, true, false, Some, None, length};
ghost use Rattle.certificate_laws.specs.Fixed.{fixed_at};
ghost use Rattle.certificate_write.specs.Sayable.{IsPlace};
ghost use Rattle.certificate_prove.specs.Growing.{AllFixed};

/// Whether a bit is at a position of its port, of so many positions a port.
#[tactic(auto, using(crate::proofs::Opening::no_port))]
pub fn is_place(positions: &[u32], place: usize) -> bool
    ensures yes { result ≡ true → IsPlace positions.now place }
    ensures no { IsPlace positions.now place → result ≡ true }
{
    match positions.get(place / 319) {
        Some(count) => place % 319 < *count as usize,
        None => false,
    }
}

/// The first open bit of those that count.
#[tactic(auto, using(crate::proofs::Opening::none_open, crate::proofs::Opening::fixed_more, crate::proofs::Opening::left_more, crate::proofs::Opening::all_open))]
pub fn open_place(positions: &[u32], fixed: &[Option<bool>]) -> Option<usize>
    ensures within { (place : ℕ) → result ≡ Some place → place < length fixed.now }
    ensures counted { (place : ℕ) → result ≡ Some place → IsPlace positions.now place }
    ensures open { (place : ℕ) → result ≡ Some place → fixed_at fixed.now place ≡ None }
    ensures none { result ≡ None → AllFixed positions.now fixed.now (length fixed.now) }
{
    for (place, value) in fixed.iter().enumerate() {
        if value.is_none() && is_place(positions, place) {
            return Some(place);
        }
    }
    None
}
