// Flatpack text in.
//
//   read      a text read chunk by chunk in fixed memory: is it well formed, and what are its entries
//   flatpack  the entries as numbers, flags and qubits used

#![tactic(auto)]

pub mod flatpack;
mod puts; // puts.rt: stores that change nothing past the end
pub mod read;
