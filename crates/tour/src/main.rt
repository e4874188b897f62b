//! One task from beginning to end, step by step: labels become keys, the keys are sorted and compared, a plan is read
//! through two layers, and keys are searched in a node.
#![tactic(auto)]

mod forms;
mod labels;
mod node_search;
mod parting;
mod refused;
mod shown;

use std::io;

fn main(rt: HostRuntime) -> io::Result<()> {
    labels::print_labels(&rt)?;
    shown::print_plan(&rt)?;
    refused::print_refusals(&rt)?;
    node_search::print_node(&rt)
}
