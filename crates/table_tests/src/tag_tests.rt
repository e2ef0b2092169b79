//! Tags of keys.
ghost use Rattle.std.specs.Prelude.{◌≡◌, ℕ, ◌↔◌, ◌<◌, length, IsTrue, IfOk};
ghost use Rattle.hash_slots.specs.Tags.{Holds};

use hash_slots::{Slots, tag_of};
use nf_base::size::Size;
use std::alloc::{AllocError, Global};
use std::test::Fail;

/// The tests search through this, which promises nothing: what the answers are is compared, and not
/// proved. A key is the wanted one where it stands under the wanted index.
fn find(slots: &Slots, tag: u32, wanted: u32) -> Option<u32> {
    let is_key = |i: u32|
        ensures { IsTrue result ↔ (i ≡ wanted) }
    { i == wanted };
    slots.find(tag, is_key)
}

/// Slots of at most two pairs, in which one stands.
fn held(alloc: Global, tag: u32, index: u32) -> Result<Slots, AllocError>
    requires { index < 65536 }
    ensures held { IfOk result (λ slots. Holds slots tag index) }
    ensures most { IfOk result (λ slots. slots.most ≡ 2) }
{
    let mut slots = Slots::new(alloc, Size::new(2))?;
    slots.put(tag, index);
    Ok(slots)
}

#[test]
fn an_index_is_found_by_its_tag(rt: HostRuntime) -> Result<(), Fail> {
    let tag = tag_of(&[1, 2]);
    let mut slots = held(rt.alloc(), tag, 7)?;
    assert_eq!(rt; find(&slots, tag, 7), Some(7));
    assert_eq!(rt; find(&slots, tag, 8), None, "the key is another one");
    assert_eq!(rt; find(&slots, tag ^ 1, 7), None);
    slots.erase(tag, 7);
    assert_eq!(rt; find(&slots, tag, 7), None);
    Ok(())
}

#[test]
fn a_tag_is_that_of_each_word_of_a_key(rt: HostRuntime) -> Result<(), Fail> {
    let tag = tag_of(&[1, 2]);
    assert!(rt; tag_of(&[2, 1]) != tag);
    assert!(rt; tag_of(&[1]) != tag);
    assert!(rt; tag_of(&[1 | 1 << 64, 2]) != tag);
    assert!(rt; tag_of(&[1, 2 | 1 << 127]) != tag);
    Ok(())
}

/// The high word that makes a factor of the hash 0.
const ZEROING: u128 = 0x9e37_79b9_7f4a_7c15 << 64;

#[test]
fn a_low_word_counts_beside_the_high_word_that_makes_a_factor_zero(
    rt: HostRuntime,
) -> Result<(), Fail> {
    assert_eq!(rt; tag_of(&[]), 0xe355_2208);
    assert_eq!(rt; tag_of(&[1, 2]), 0xec39_14ca);
    assert_eq!(rt; tag_of(&[5 | ZEROING]), 0x761c_f911);
    assert_eq!(rt; tag_of(&[6 | ZEROING]), 0x478f_c40c);
    assert!(rt; tag_of(&[1, ZEROING]) != tag_of(&[2, ZEROING]));
    Ok(())
}
