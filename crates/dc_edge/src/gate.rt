//! A gate that each piece of a round's work passes.

/// A place that pieces of work pass, before each of them; it has no effect on answers.
pub trait Gate {
    fn pass(&self, piece: usize);
}

/// The gate that does nothing.
#[derive(Clone, Copy, Debug)]
pub struct OpenGate;

impl Gate for OpenGate {
    fn pass(&self, _piece: usize) {}
}
