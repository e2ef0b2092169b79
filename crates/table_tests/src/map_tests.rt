//! Maps.
ghost use Rattle.std.specs.Prelude.{◌≡◌, IfOk};

use nf_base::key::Key;
use nf_base::size::Size;
use std::alloc::{AllocError, Global};
use std::test::Fail;
use vig_map::Map;

fn key(first: u128, second: u128) -> Key {
    let mut key = Key::new();
    key.push(first);
    key.push(second);
    key
}

// The tests call a map through these, which promise nothing: what the answers are is compared, and
// not proved.

fn get(map: &Map, key: &Key) -> Option<u32> {
    map.get(key)
}

fn put(map: &mut Map, key: Key, value: u32) -> bool {
    map.put(key, value)
}

fn erase(map: &mut Map, key: &Key) -> Option<u32> {
    map.erase(key)
}

#[test]
fn pairs_are_found_until_they_are_erased(rt: HostRuntime) -> Result<(), Fail> {
    let mut map = Map::new(rt.alloc(), Size::new(3))?;
    assert_eq!(rt; get(&map, &key(1, 2)), None);
    assert!(rt; put(&mut map, key(1, 2), 7));
    assert!(rt; !put(&mut map, key(1, 2), 8));
    assert!(rt; put(&mut map, key(2, 1), 9));
    assert!(rt; put(&mut map, Key::new(), 5));
    assert!(rt; !put(&mut map, key(3, 3), 1), "three pairs stand");
    assert_eq!(rt; get(&map, &key(1, 2)), Some(7));
    assert_eq!(rt; erase(&mut map, &key(1, 2)), Some(7));
    assert_eq!(rt; erase(&mut map, &key(1, 2)), None);
    assert_eq!(rt; get(&map, &key(1, 2)), None);
    assert_eq!(rt; get(&map, &key(2, 1)), Some(9));
    assert_eq!(rt; get(&map, &Key::new()), Some(5));
    assert!(rt; put(&mut map, key(3, 3), 1));
    Ok(())
}

#[test]
fn the_others_are_found_when_half_are_erased(rt: HostRuntime) -> Result<(), Fail> {
    let mut map = Map::new(rt.alloc(), Size::new(2000))?;
    for i in 0..2000u32 {
        assert!(rt; put(&mut map, key(0x0a00_0000, u128::from(i)), i));
    }
    for i in 0..2000u32 {
        if i % 3 != 1 {
            assert_eq!(rt; erase(&mut map, &key(0x0a00_0000, u128::from(i))), Some(i));
        }
    }
    for i in 0..2000u32 {
        let value = if i % 3 == 1 { Some(i) } else { None };
        assert_eq!(rt; get(&map, &key(0x0a00_0000, u128::from(i))), value);
    }
    Ok(())
}

/// A map of at most two pairs, in which the key 1, 2 has the value 7.
fn bound(alloc: Global) -> Result<Map, AllocError>
    ensures { IfOk result (λ map. map.most ≡ 2) }
{
    let mut map = Map::new(alloc, Size::new(2))?;
    map.put(key(1, 2), 7);
    Ok(map)
}

/// A copy of a map of at most two pairs.
fn copied(alloc: Global, map: &Map) -> Result<Map, AllocError>
    requires { map.now.most ≡ 2 }
{
    let mut copy = Map::new(alloc, Size::new(2))?;
    copy.copy_from(map);
    Ok(copy)
}

#[test]
fn a_copy_goes_on_by_itself(rt: HostRuntime) -> Result<(), Fail> {
    let mut map = bound(rt.alloc())?;
    let mut copy = copied(rt.alloc(), &map)?;
    assert_eq!(rt; get(&copy, &key(1, 2)), Some(7));
    assert!(rt; put(&mut copy, key(2, 1), 9));
    assert!(rt; !put(&mut copy, key(3, 3), 1), "two pairs stand");
    assert_eq!(rt; get(&map, &key(2, 1)), None);
    assert_eq!(rt; erase(&mut map, &key(1, 2)), Some(7));
    assert_eq!(rt; get(&copy, &key(1, 2)), Some(7));
    Ok(())
}
