//! Parts are published one by one and both at once; each read shows both of one version, whatever other agents do, and rest counts
//! the rows.

mod calls;
mod plain;
mod reclaiming;
mod rests;
mod threads;
