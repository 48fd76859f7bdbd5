//! Both outputs of a command.

use texts::Output;

/// Where a command writes: its answers to the one output, its notes and errors to the other.
#[derive(Drop)]
pub struct Outputs<W, E> {
    pub writer: Output<W>,
    pub errors: Output<E>,
}
