use streams::Numbers;

// A call of a bench with its arguments.
#[derive(Clone, Copy)]
pub enum Call<'a> {
    Fit { slot: u64, numbers: Numbers },
    Pull { slot: u64 },
    Prime { slot: u64, history: u64 },
    Load { file: &'a [u8] },
    Start,
    Advance { units: u64 },
    Disturb,
    Stop,
}
