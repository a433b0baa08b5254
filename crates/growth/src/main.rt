// Makes a zone of sixteen operators and so many objects, then one raise that bills and one share-out of it:
//
//     growth OBJECTS ORDER    1 to 1024 objects; their numbers rising, or mixed, which is in no order
//
// It exists so that tools/bench can count the instructions that one raise and one share-out take, by the number of objects
// that the zone counts and by the order in which they were numbered. The line that it prints tells that both were made:
// how many lines each wrote, and the totals of the zone after them, amounts in micro-euros. tools/growth_model.py prints
// the same.
#![tactic(auto)]

mod grown;

use book::limits::MOST_OBJECTS;
use grown::{Lent, Order};
use std::env;
use std::process::ExitCode;
use streams::ending::ended;
use streams::failure::Failure;

// How many objects, and the order of their numbers; nothing if the words do not say it.
fn wanted(words: &[String]) -> Option<(usize, Order)> {
    let [objects, order] = words else {
        return None;
    };
    let objects = objects.parse::<usize>().ok()?;
    if !(1..=MOST_OBJECTS).contains(&objects) {
        return None;
    }
    match order.as_str() {
        "rising" => Some((objects, Order::Rising)),
        "mixed" => Some((objects, Order::Mixed)),
        _ => None,
    }
}

// The words after the program's name.
fn arguments(rt: &HostRuntime) -> Result<Vec<String>, Failure> {
    let words = env::args(rt).map_err(Failure::arguments)?.skip(1);
    Ok(words.collect(rt.alloc())?)
}

fn grow(rt: &HostRuntime, objects: usize, order: Order) -> Result<(), Failure> {
    let mut lent = Lent::new(rt.alloc())?;
    match lent.grow(objects, order) {
        Ok(grown) => println!(rt; "{grown}").map_err(Failure::output),
        Err(refusal) => {
            let number = refusal.number();
            println!(rt; "REFUSED {number}").map_err(Failure::output)
        }
    }
}

fn main(rt: HostRuntime) -> ExitCode {
    let words = match arguments(&rt) {
        Ok(words) => words,
        Err(failure) => return ended(&rt, Err(failure)),
    };
    let Some((objects, order)) = wanted(words.as_slice()) else {
        let _ = eprintln!(&rt;
            "give a number of objects from 1 to {MOST_OBJECTS}, and rising or mixed"
        );
        return ExitCode::FAILURE;
    };
    ended(&rt, grow(&rt, objects, order))
}
