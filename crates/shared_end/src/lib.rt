// What the master end and the slave end have in common.
#![tactic(auto)]

pub mod answer;
pub mod data_command;
pub mod endpoint;
pub mod link;
pub mod noting;
pub mod step;
