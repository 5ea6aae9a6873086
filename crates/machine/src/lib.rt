// The middleware as a machine of definitions: what each call answers and leaves, over what the stores mean; and why a call is refused.
#![tactic(auto)]

pub mod reason;

pub use reason::Reason;
