//! Numbers of instances.

/// A live instance, by its number.
#[derive(Clone, Copy, Debug, PartialEq, Eq)]
pub struct InstanceId(pub usize);
