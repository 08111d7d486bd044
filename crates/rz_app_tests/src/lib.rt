//! Tests of devices and of the top call.
#![tactic(auto)]

#[cfg(test)]
mod devices;
#[cfg(test)]
mod kernel_calls;
#[cfg(test)]
mod tope_calls;
