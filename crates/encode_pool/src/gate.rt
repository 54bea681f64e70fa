// What is called round each encoding.
use std::sync::Wait;
use xp_base::JobId;

/// What is called before and after each encoding of a worker. Its calls may wait, and answer nothing.
pub trait Gate {
    fn before<R: Wait>(&self, rt: &R, id: JobId);

    fn after<R: Wait>(&self, rt: &R, id: JobId);
}

/// A gate that is always open: its calls return at once.
#[derive(Drop)]
pub struct NoGate;

impl Gate for NoGate {
    fn before<R: Wait>(&self, _rt: &R, _id: JobId) {}

    fn after<R: Wait>(&self, _rt: &R, _id: JobId) {}
}
