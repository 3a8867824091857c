/// Is told of each node before a lane works it. It returns, and promises nothing else.
pub trait Gate: Sync {
    /// Lane `lane` is about to work node `node`.
    fn pass(&self, lane: u32, node: u32);
}

/// The gate that does nothing.
pub struct Open;

impl Gate for Open {
    fn pass(&self, _lane: u32, _node: u32) {}
}
