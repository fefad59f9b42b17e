//! Calls of a queue.
use crate::rows::{check_rows, number, parted, push_answer, shown};
use ldap_ber::discard;
use persist_queues::{SearchQueue, Weighs};
use std::alloc::{AllocError, Global};

/// Calls of a queue, and what comes of each.
const ROWS: &str = "\
# A limit, what is pending, and what is put after it
queue limit 2;push 1;push 1 => set,pushed,pushed,
queue limit 2;push 1,1;push 1 => set,pushed,the queue of 2 items is full,
queue limit 3;push 1;push 1,1,1 => set,pushed,the queue of 3 items is full,
queue limit 0;push;push => set,pushed,pushed,
queue limit 0;push;push 1 => set,pushed,the queue of 0 items is full,
queue limit 9;push 16777215;push 1 => set,pushed,pushed,
queue limit 9;push 16777216;push => set,pushed,pushed,
queue limit 9;push 16777216;push 1 => set,pushed,the queue of 9 items is full,
queue limit 9;push 1;push 18446744073709551615 => set,pushed,the queue of 9 items is full,
queue limit 9;push;push 18446744073709551615,1 => set,pushed,the queue of 9 items is full,
# Each call
queue limit 3;reserve 2;spare 2;push 1,2;limit 1;length;push;pop;pop;pop;push 3;end;pop => set,reserved,true,pushed,set,2,the queue of 1 items is full,Some(1),Some(2),None,pushed,ended,None,
# What is pending by its place
queue limit 3;push 1,2;pop;push 3,4;get 0;get 1;get 2;get 3 => set,pushed,Some(1),pushed,Some(2),Some(3),Some(4),None,
# The text of a refusal
queue limit 7;push 1,1,1,1,1,1,1,1 => set,the queue of 7 items is full,
";

/// What is pending in a full queue stays, and a part of a write is not put after it.
const FULL: &str = "\
queue limit 2;push 1,2;push 3;pop;pop;pop => set,pushed,the queue of 2 items is full,Some(1),Some(2),None,
queue limit 2;push 1;push 2,3;pop;pop => set,pushed,the queue of 2 items is full,Some(1),None,
";

#[test]
fn calls_of_a_queue(rt: HostRuntime) {
    check_rows(&rt, rt.alloc(), ROWS);
}

#[test]
fn a_full_queue_keeps_its_oldest_item(rt: HostRuntime) {
    check_rows(&rt, rt.alloc(), FULL);
}

/// An item that is nothing but its weight.
#[derive(Clone, Copy)]
struct Item {
    weight: u64,
}

impl Weighs for Item {
    ghost weight = { λ item. item.weight };

    fn weight(&self) -> u64 {
        self.weight
    }
}

/// Items of these weights.
fn items(alloc: Global, weights: &str) -> Result<Vec<Item>, AllocError> {
    let mut items = Vec::new(alloc);
    for weight in weights.split(',') {
        if !weight.is_empty() {
            items.push(Item {
                weight: number(weight),
            })?;
        }
    }
    Ok(items)
}

/// What comes of each call, with a comma after it.
pub(crate) fn reported(alloc: Global, calls: &str) -> Result<String, AllocError> {
    let mut text = String::new(alloc);
    let mut queue = SearchQueue::new(alloc, 0);
    let done = push_calls(alloc, &mut queue, &mut text, calls);
    discard(queue);
    done?;
    Ok(text)
}

fn push_calls(
    alloc: Global,
    queue: &mut SearchQueue<Item>,
    text: &mut String,
    calls: &str,
) -> Result<(), AllocError> {
    for call in calls.split(';') {
        push_answer(text, after_call(alloc, queue, call))?;
    }
    Ok(())
}

fn after_call(
    alloc: Global,
    queue: &mut SearchQueue<Item>,
    call: &str,
) -> Result<String, AllocError> {
    let (word, of) = parted(call);
    match word {
        "push" => pushed(alloc, queue, of),
        "pop" => shown(alloc, &weight_of(queue.pop())),
        "get" => shown(alloc, &weight_of(queue.get(number(of) as usize).copied())),
        "length" => shown(alloc, &queue.len()),
        "spare" => shown(alloc, &(number(of) <= queue.spare() as u64)),
        _ => changed(queue, word, number(of))?.to_string(alloc),
    }
}

fn weight_of(item: Option<Item>) -> Option<u64> {
    match item {
        Some(item) => Some(item.weight),
        None => None,
    }
}

fn changed(
    queue: &mut SearchQueue<Item>,
    word: &str,
    number: u64,
) -> Result<&'static str, AllocError> {
    match word {
        "limit" => {
            queue.set_limit(number);
            Ok("set")
        }
        "reserve" => {
            queue.reserve(number as usize)?;
            Ok("reserved")
        }
        _ => {
            queue.end();
            Ok("ended")
        }
    }
}

fn pushed(
    alloc: Global,
    queue: &mut SearchQueue<Item>,
    weights: &str,
) -> Result<String, AllocError> {
    match queue.push_all(items(alloc, weights)?) {
        Ok(()) => "pushed".to_string(alloc),
        Err(fault) => format!(in alloc; "{fault}"),
    }
}
