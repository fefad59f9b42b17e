//! Calls of a map that shares its nodes, and how long its ways down become.
use crate::assertions::assert_same;
use crate::rows::{check_rows, number, parted, push_answer, shown};
use ldap_ber::discard;
use shared_map::SharedMap;
use std::alloc::{AllocError, Global};
use std::process::Abort;

type Numbers = SharedMap<u64, u64>;

/// Calls of a map and of a copy of it, and what comes of each.
const ROWS: &str = "\
# Ascending, descending and mixed keys, and a key that is there
map put 1 10;put 2 20;put 3 30;put 4 40;put 5 50;values => ok,ok,ok,ok,ok,[10, 20, 30, 40, 50],
map put 5 50;put 4 40;put 3 30;put 2 20;put 1 10;values => ok,ok,ok,ok,ok,[10, 20, 30, 40, 50],
map put 3 30;put 1 10;put 5 50;put 4 40;put 2 20;values => ok,ok,ok,ok,ok,[10, 20, 30, 40, 50],
map put 1 10;put 3 30;put 2 20;values;put 2 21;values;len => ok,ok,ok,[10, 20, 30],ok,[10, 21, 30],3,
map put 3 30;put 1 10;put 2 20;values => ok,ok,ok,[10, 20, 30],
# What is found
map get 1;first;last;from 0;after 0;values;above 0;len => None,None,None,None,None,[],[],0,
map put 2 20;put 4 40;get 1;get 2;get 3;get 4 => ok,ok,None,Some(20),None,Some(40),
map put 4 40;put 2 20;first;last => ok,ok,Some((2, 20)),Some((4, 40)),
map put 2 20;put 4 40;from 1;from 2;from 3;from 4;from 5 => ok,ok,Some((2, 20)),Some((2, 20)),Some((4, 40)),Some((4, 40)),None,
map put 2 20;put 4 40;after 1;after 2;after 3;after 4;after 5 => ok,ok,Some((2, 20)),Some((4, 40)),Some((4, 40)),None,None,
map put 2 20;put 4 40;put 6 60;above 1;above 2;above 5;above 6 => ok,ok,ok,[20, 40, 60],[40, 60],[60],[],
# Removals: of a key with keys on both sides, of one at an end, of one that is not there, of all
map put 2 20;put 1 10;put 3 30;remove 2;values;len => ok,ok,ok,ok,[10, 30],2,
map put 2 20;put 1 10;put 3 30;remove 1;remove 4;values;len => ok,ok,ok,ok,ok,[20, 30],2,
map put 1 10;put 2 20;put 3 30;put 4 40;remove 1;remove 2;values => ok,ok,ok,ok,ok,ok,[30, 40],
map put 4 40;put 3 30;put 2 20;put 1 10;remove 4;remove 3;values => ok,ok,ok,ok,ok,ok,[10, 20],
map put 1 10;remove 1;values;len;put 1 11;values => ok,ok,[],0,ok,[11],
# A copy stays as it was
map put 1 10;put 2 20;copy;put 2 21;put 3 30;values;old => ok,ok,ok,ok,ok,[10, 21, 30],[10, 20],
map put 1 10;put 2 20;copy;remove 1;values;old => ok,ok,ok,ok,[20],[10, 20],
# A pair of the copy comes in, and then each has its own changes
map put 1 10;copy;put 1 11;share 1;values;old => ok,ok,ok,ok,[10],[10],
map put 1 10;put 2 20;copy;remove 2;share 2;put 2 21;values;old => ok,ok,ok,ok,ok,ok,[10, 21],[10, 20],
map put 3 30;copy;remove 3;share 2;share 3;len;share 4;values;old => ok,ok,ok,None,ok,1,None,[30],[30],
";

#[test]
fn calls_of_a_map(rt: HostRuntime) {
    check_rows(&rt, rt.alloc(), ROWS);
}

type Places = SharedMap<Vec<u8>, u64>;

/// Keys, what keys are asked for to begin with, and the places of those that do, in their order.
const BEGINNINGS: [(&str, &str, &str); 9] = [
    ("b a ab abc ac", "ab", "[2, 3]"),
    ("b a ab abc ac", "a", "[1, 2, 3, 4]"),
    ("b a ab abc ac", "", "[1, 2, 3, 4, 0]"),
    ("b a ab abc ac", "abd", "[]"),
    ("b a ab abc ac", "b", "[0]"),
    ("ad abz abc abb aba aaz", "ab", "[4, 3, 2, 1]"),
    ("a", "aa", "[]"),
    (
        "aaaaaaaab aaaaaaaaac aaaaaaaa b aaaaaaab",
        "aaaaaaaa",
        "[2, 1, 0]",
    ),
    (
        "aaaaaaaab aaaaaaaaac aaaaaaaa b aaaaaaab",
        "",
        "[2, 1, 0, 4, 3]",
    ),
];

#[test]
fn keys_that_begin_alike(rt: HostRuntime) {
    for (keys, beginning, wanted) in &BEGINNINGS {
        check_beginning(&rt, rt.alloc(), keys, beginning, wanted);
    }
}

fn check_beginning(rt: &impl Abort, alloc: Global, keys: &str, beginning: &str, wanted: &str) {
    let found = places_within(alloc, keys, beginning).expect(rt, "some values");
    assert_same(rt, beginning, &found.as_str(), &wanted);
}

fn places_within(alloc: Global, keys: &str, beginning: &str) -> Result<String, AllocError> {
    let mut map = SharedMap::new(alloc);
    let done = put_places(alloc, &mut map, keys);
    let text = values_shown(alloc, map.values_within(beginning.as_bytes()));
    discard(map);
    done?;
    text
}

fn put_places(alloc: Global, map: &mut Places, keys: &str) -> Result<(), AllocError> {
    let mut place = 0u64;
    for key in keys.split(' ') {
        let mut text = Vec::new(alloc);
        text.extend_from_slice(key.as_bytes())?;
        map.insert(text, place)?;
        place = place.wrapping_add(1);
    }
    Ok(())
}

/// Steps through the keys below 20,000 that lead to each of them: up, down, and to and fro.
const STEPS: [u64; 3] = [1, 19_999, 7_919];

#[test]
fn ways_down_stay_short(rt: HostRuntime) {
    for step in &STEPS {
        check_ways(&rt, rt.alloc(), *step);
    }
}

fn check_ways(rt: &impl Abort, alloc: Global, step: u64) {
    let mut map = SharedMap::new(alloc);
    fill(&mut map, step).expect(rt, "20,000 keys");
    assert_short(rt, &map, 20_000);
    // Other values take the places of these.
    fill(&mut map, step).expect(rt, "the same keys");
    assert_short(rt, &map, 20_000);
    drain_half(&mut map).expect(rt, "10,000 keys");
    assert_short(rt, &map, 10_000);
    discard(map);
}

/// The map has as many keys, of which 10,000 need 14 levels, and no long way down.
fn assert_short(rt: &impl Abort, map: &Numbers, count: usize) {
    assert_same(rt, "keys", &map.len(), &count);
    assert!(rt; map.height() >= 14);
    assert!(rt; map.height() < 32);
}

fn fill(map: &mut Numbers, step: u64) -> Result<(), AllocError> {
    let mut key = 0u64;
    for _ in 0..20_000 {
        map.insert(key, key)?;
        key = key.wrapping_add(step) % 20_000;
    }
    Ok(())
}

/// Removes the keys from 5,000 to 14,999.
fn drain_half(map: &mut Numbers) -> Result<(), AllocError> {
    for key in 5_000..15_000u64 {
        map.remove(&key)?;
    }
    Ok(())
}

/// What comes of each call, with a comma after it.
pub(crate) fn reported(alloc: Global, calls: &str) -> Result<String, AllocError> {
    let mut text = String::new(alloc);
    let mut map = SharedMap::new(alloc);
    let mut old = SharedMap::new(alloc);
    let done = push_calls(alloc, &mut map, &mut old, &mut text, calls);
    discard(map);
    discard(old);
    done?;
    Ok(text)
}

fn push_calls(
    alloc: Global,
    map: &mut Numbers,
    old: &mut Numbers,
    text: &mut String,
    calls: &str,
) -> Result<(), AllocError> {
    for call in calls.split(';') {
        push_answer(text, after_call(alloc, map, old, call))?;
    }
    Ok(())
}

fn after_call(
    alloc: Global,
    map: &mut Numbers,
    old: &mut Numbers,
    call: &str,
) -> Result<String, AllocError> {
    let (word, of) = parted(call);
    match word {
        "put" => done(alloc, put(map, of)),
        "remove" => done(alloc, map.remove(&number(of))),
        "copy" => done(alloc, copy(map, old)),
        "old" => values_shown(alloc, old.values()),
        "share" => share(alloc, map, old, number(of)),
        _ => found(alloc, map, word, number(of)),
    }
}

fn done(alloc: Global, done: Result<(), AllocError>) -> Result<String, AllocError> {
    done?;
    "ok".to_string(alloc)
}

fn put(map: &mut Numbers, of: &str) -> Result<(), AllocError> {
    let (key, value) = parted(of);
    map.insert(number(key), number(value))
}

fn copy(map: &Numbers, old: &mut Numbers) -> Result<(), AllocError> {
    *old = map.copy()?;
    Ok(())
}

/// Puts the pair of the other map at the key in, where there is one.
fn share(alloc: Global, map: &mut Numbers, old: &Numbers, key: u64) -> Result<String, AllocError> {
    match old.pair_at(&key) {
        Some(pair) => done(alloc, map.insert_shared(pair)),
        None => "None".to_string(alloc),
    }
}

fn found(alloc: Global, map: &Numbers, word: &str, key: u64) -> Result<String, AllocError> {
    match word {
        "get" => shown(alloc, &map.get(&key)),
        "first" => shown(alloc, &map.first()),
        "last" => shown(alloc, &map.last()),
        "from" => shown(alloc, &map.next_from(&key)),
        "after" => shown(alloc, &map.next_after(&key)),
        "above" => values_shown(alloc, map.values_after(&key)),
        "len" => shown(alloc, &map.len()),
        _ => values_shown(alloc, map.values()),
    }
}

fn values_shown(
    alloc: Global,
    values: Result<Vec<&u64>, AllocError>,
) -> Result<String, AllocError> {
    shown(alloc, &values?)
}
