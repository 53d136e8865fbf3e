//! What bench/ times of halls. `hall SEATS ACTS` lets so many seats act on threads, ACTS times in all, and prints how many acts were
//! entered; `lock SEATS ACTS` does the same with the runtime under a mutex.
#![tactic(auto)]

mod scene;
mod turns;
mod under_lock;

use crate::scene::runtime_of;
use std::alloc::Global;
use std::process::ExitCode;
use std::sync::Wait;
use std::thread::Threads;
use vericon_edge::host_words::host_words;

/// How threads share the runtime.
#[derive(Clone, Copy)]
enum Way {
    Hall,
    Lock,
}

/// What is timed.
#[derive(Clone, Copy)]
struct Ask {
    way: Way,
    seats: u32,
    acts: u64,
}

/// What the words ask for; none where they ask for nothing.
fn ask_of(words: &[String]) -> Option<Ask> {
    let [way, seats, acts] = words else {
        return None;
    };
    let way = match way.as_str() {
        "hall" => Way::Hall,
        "lock" => Way::Lock,
        _ => return None,
    };
    let seats = seats.as_str().parse::<u32>().ok()?;
    let acts = acts.as_str().parse::<u64>().ok()?;
    Some(Ask { way, seats, acts })
}

/// How many acts were entered; none where there are no words, no memory, or more seats or acts than there may be.
fn entered<R: Threads + Wait + Sync>(rt: &R, alloc: Global, words: &[String]) -> Option<usize> {
    let ask = ask_of(words)?;
    if ask.seats == 0 || ask.seats > 64 || ask.acts > 4194304 {
        return None;
    }
    let share = ask.acts / (ask.seats as u64);
    let runtime = runtime_of(alloc)?;
    match ask.way {
        Way::Hall => turns::entered(rt, alloc, runtime, ask.seats, share),
        Way::Lock => under_lock::entered(rt, alloc, runtime, ask.seats, share),
    }
}

fn main(rt: HostRuntime) -> ExitCode {
    let alloc = rt.alloc();
    let count = match host_words(alloc, &rt) {
        Ok(words) => entered(&rt, alloc, &words),
        Err(_) => None,
    };
    let told = match count {
        Some(count) => println!(rt; "entered {count}"),
        None => println!(rt; "nothing to time"),
    };
    match told {
        Ok(()) if count.is_some() => ExitCode::SUCCESS,
        _ => ExitCode::FAILURE,
    }
}
