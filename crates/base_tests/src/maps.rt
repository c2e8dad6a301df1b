//! A plain map answers each call from what the calls before it left.
use map_model::{Answer, Answerer, Call, Near, NoRoom, PlainMap};
use std::sync::Wait;
use std::test::Fail;

// Through the bound, as every caller asks.
fn asked<R: Wait + Copy, A: Answerer>(rt: &R, answerer: &mut A, call: Call) -> Answer {
    answerer.ask(rt, call)
}

#[test]
fn each_call_is_answered_from_the_map_that_the_calls_before_it_left(
    rt: HostRuntime,
) -> Result<(), Fail> {
    let table = [
        (Call::Get { key: 5 }, Answer::Value(None)),
        (Call::Put { key: 5, value: 50 }, Answer::Old(None)),
        (Call::Put { key: 3, value: 30 }, Answer::Old(None)),
        (Call::Put { key: 5, value: 51 }, Answer::Old(Some(50))),
        (Call::Put { key: 9, value: 90 }, Answer::Full),
        (Call::Get { key: 9 }, Answer::Value(None)),
        (Call::Get { key: 5 }, Answer::Value(Some(51))),
        (
            Call::Next { from: 0 },
            Answer::Near(Near::Row { key: 3, value: 30 }),
        ),
        (
            Call::Next { from: 4 },
            Answer::Near(Near::Row { key: 5, value: 51 }),
        ),
        (
            Call::Next { from: 6 },
            Answer::Near(Near::Gap { hi: u64::MAX }),
        ),
        (Call::Remove { key: 3 }, Answer::Old(Some(30))),
        (Call::Remove { key: 3 }, Answer::Old(None)),
        (Call::Put { key: 9, value: 91 }, Answer::Old(None)),
        (
            Call::Next { from: 6 },
            Answer::Near(Near::Row { key: 9, value: 91 }),
        ),
    ];
    let mut map = PlainMap::with_room(rt.alloc(), 2)?;
    for (call, answer) in table {
        assert_eq!(rt; asked(&rt, &mut map, call), answer, "{call:?}");
    }
    Ok(())
}

#[test]
fn a_full_map_refuses_new_keys_alone(rt: HostRuntime) -> Result<(), Fail> {
    let mut map = PlainMap::with_room(rt.alloc(), 1)?;
    assert_eq!(rt; map.put(5, 50), Ok(None));
    assert_eq!(rt; map.put(6, 60), Err(NoRoom));
    assert_eq!(rt; map.put(5, 51), Ok(Some(50)));
    assert_eq!(rt; map.next_from(6), Near::Gap { hi: u64::MAX });
    assert_eq!(rt; map.get(5), Some(51));
    assert_eq!(rt; map.remove(5), Some(51));
    assert_eq!(rt; map.put(6, 60), Ok(None));
    Ok(())
}

#[test]
fn a_map_without_room_is_empty(rt: HostRuntime) -> Result<(), Fail> {
    let mut map = PlainMap::with_room(rt.alloc(), 0)?;
    assert_eq!(rt; map.put(0, 0), Err(NoRoom));
    let shown = format!(in rt.alloc(); "{NoRoom}")?;
    assert_eq!(rt; shown.as_str(), "the map has room for no more keys");
    assert_eq!(rt; map.get(0), None);
    assert_eq!(rt; map.remove(0), None);
    Ok(())
}
