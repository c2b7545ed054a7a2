// Each public call once, over elements that own memory.
use crate::expect::same;
use fib_base_blocks::{Blocks, Sought};
use std::cmp::Ordering;
use std::test::Fail;

/// A number in memory of its own.
#[derive(Drop)]
struct Boxed {
    number: Box<u32>,
}

/// A number that is sought.
#[derive(Drop)]
struct Number {
    number: u32,
}

impl Sought<Boxed> for Number {
    ghost use Rattle.std.specs.Ordering.{nat_cmp};

    ghost order = { λ s b. nat_cmp b.number.value s.number };

    fn compare(&self, element: &Boxed) -> Ordering {
        (*element.number).cmp(&self.number)
    }
}

fn numbered(rt: &HostRuntime, number: u32) -> Result<Boxed, Fail> {
    Ok(Boxed {
        number: Box::new(rt.alloc(), number)?,
    })
}

/// The number at a place.
fn number_at(list: &Blocks<Boxed>, place: usize) -> Option<u32> {
    match list.get(place) {
        Some(found) => Some(*found.number),
        None => None,
    }
}

#[test]
fn elements_come_and_go(rt: HostRuntime) -> Result<(), Fail> {
    let mut list: Blocks<Boxed> = Blocks::new(rt.alloc());
    same(&rt, number_at(&list, 0), None);
    for number in 0..1_000 {
        list.insert(0, numbered(&rt, number)?)?;
    }
    same(&rt, list.len(), 1_000);
    same(&rt, number_at(&list, 0), Some(999));
    same(&rt, number_at(&list, 999), Some(0));
    if list.len() > 500 {
        *list[500].number = 7;
        same(&rt, *list[500].number, 7);
        let gone = list.remove(500);
        same(&rt, *gone.number, 7);
    }
    same(&rt, number_at(&list, 500), Some(498));
    for _ in 0..999 {
        if list.len() > 0 {
            // The element that goes is let go.
            let _gone = list.remove(0);
        }
    }
    same(&rt, list.len(), 0);
    Ok(())
}

#[test]
fn elements_are_found(rt: HostRuntime) -> Result<(), Fail> {
    let mut evens = Vec::new(rt.alloc());
    for number in 0..1_000 {
        evens.push(numbered(&rt, 2 * number)?)?;
    }
    let list = Blocks::of(rt.alloc(), evens)?;
    for place in 0..1_000 {
        let number = 2 * place as u32;
        same(&rt, list.search(&Number { number }), Ok(place));
        same(
            &rt,
            list.search(&Number { number: number + 1 }),
            Err(place + 1),
        );
    }
    Ok(())
}

#[test]
fn elements_come_back(rt: HostRuntime) -> Result<(), Fail> {
    let mut list: Blocks<Boxed> = Blocks::new(rt.alloc());
    for number in 0..600 {
        list.push(numbered(&rt, number)?)?;
    }
    for place in 0..600 {
        if place < list.len() {
            let spare = list.spare()?;
            let gone = list.remove(place);
            if place <= list.len() && list.len() < spare.most() {
                list.put_back(place, gone, spare);
            }
        }
        same(&rt, number_at(&list, place), Some(place as u32));
    }
    if list.len() > 7 {
        let old = list.replace(7, numbered(&rt, 1_000)?);
        same(&rt, *old.number, 7);
        same(&rt, number_at(&list, 7), Some(1_000));
    }
    list.pop();
    same(&rt, list.len(), 599);
    Ok(())
}

// There is no block to which it could come.
#[test]
fn an_element_comes_back_to_an_empty_list(rt: HostRuntime) -> Result<(), Fail> {
    let mut list: Blocks<Boxed> = Blocks::new(rt.alloc());
    list.push(numbered(&rt, 5)?)?;
    let spare = list.spare()?;
    if list.len() == 1 && spare.most() == 1 {
        let gone = list.remove(0);
        list.put_back(0, gone, spare);
    }
    same(&rt, number_at(&list, 0), Some(5));
    Ok(())
}
