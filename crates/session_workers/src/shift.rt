//! What the workers have in common while they serve.
use crate::terms::Terms;
use shared_hall::Hall;
use std::alloc::Global;
use std::sync::Mutex;

/// The runtime, the hall, the terms, and the desk under its lock.
#[derive(Drop)]
pub struct Shift<'a, D, R> {
    pub rt: &'a R,
    pub alloc: Global,
    pub hall: &'a Hall,
    pub terms: Terms,
    pub desk: &'a Mutex<D>,
}
