// The flow providers: what each member has agreed with the executors, and its default executor.
#![tactic(auto)]

mod fault;
mod mask;
mod provider;
mod table;
#[cfg(test)]
mod tests;

pub use fault::{Fault, Field};
pub use provider::{Provider, ProviderFields};
pub use table::Providers;
