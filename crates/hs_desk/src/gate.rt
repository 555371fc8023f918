//! What is called around each call of a disk.
use crate::Job;

/// Called before and after each job that is done on a disk, while nothing is locked.
pub trait Gate {
    fn before(&self, peer: u8, job: &Job);

    fn after(&self, peer: u8, job: &Job);
}

/// A gate that does nothing.
#[derive(Clone, Copy, Debug)]
pub struct OpenGate;

impl Gate for OpenGate {
    fn before(&self, _peer: u8, _job: &Job) {}

    fn after(&self, _peer: u8, _job: &Job) {}
}
