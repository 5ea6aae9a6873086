// The board over a bank that it owns: the calls that stations make, and the law of whole queues.
use banks::Bank;
use engine::Engine;

mod opens;
mod queue;
mod records;
mod single_calls;

#[derive(Drop)]
pub struct Middleware<B: Bank> {
    engine: Engine<B>,
}
