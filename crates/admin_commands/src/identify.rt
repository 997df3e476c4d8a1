//! What Identify brings: the fields that a driver needs, read from the 4,096 bytes (NVM Express Base Specification 2.0, Identify command, "Identify
//! Controller Data Structure"; NVM Command Set Specification 1.0, "Identify Namespace Data Structure"). Every string of bytes is read.

pub mod controller;
pub mod namespace;
