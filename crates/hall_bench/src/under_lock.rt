//! The same acts with the runtime under a mutex.
use crate::scene::entry_of;
use csdn_run::Runtime;
use std::alloc::Global;
use std::sync::{Mutex, Wait};
use std::thread::{Threads, for_each_mut};

fn act_often<R: Wait>(rt: &R, lock: &Mutex<Runtime>, number: u32, acts: u64) {
    for _ in 0..acts {
        let entry = entry_of(number);
        // what is refused isn't entered, and shows in the count
        let _answer = lock.lock(rt).apply(&entry);
    }
}

fn act_on_threads<R: Threads + Wait + Sync>(
    rt: &R,
    lock: &Mutex<Runtime>,
    numbers: &mut [u32],
    acts: u64,
) {
    for_each_mut(
        rt,
        numbers,
        64,
        &|_, number: &mut u32| act_often(rt, lock, *number, acts),
    );
}

/// How many acts were entered, where each of so many threads acts so often; none for want of memory.
pub fn entered<R: Threads + Wait + Sync>(
    rt: &R,
    alloc: Global,
    runtime: Runtime,
    threads: u32,
    acts: u64,
) -> Option<usize> {
    let mut numbers = Vec::new(alloc);
    for number in 0..threads {
        numbers.push(number).ok()?;
    }
    let lock = Mutex::new(runtime);
    act_on_threads(rt, &lock, numbers.as_mut_slice(), acts);
    let left = lock.into_inner();
    Some(left.history().len())
}
