// How a monitor stands.

// Its limits, how many epochs are certified, and whether the log was wrong.
#[derive(Clone, Copy)]
pub struct Standing {
    pub verifiers: u64,
    pub places: usize,
    pub epochs: u64,
    pub certified: u64,
    pub stopped: bool,
}
