// One board on many replicas: the middleware's calls as code, each as the machine's definitions have it.
#![tactic(auto)]

pub mod engine;

pub use engine::Engine;
