// The numbers of a stream as they are given, before any test.

// The period, the relative deadline and the service time of a stream, and its history of k outcomes, of which m are to be met.
#[derive(Clone, Copy, Debug, PartialEq, Eq)]
pub struct Numbers {
    pub period: u64,
    pub deadline: u64,
    pub service: u64,
    pub m: u64,
    pub k: u64,
    pub history: u64,
}
