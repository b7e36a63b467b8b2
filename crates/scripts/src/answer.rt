// The line that answers a call.
use bench::{Figures, Forecast};
use bus::Tally;
use refusal::{Fault, Refusal};
use std::fmt;
use thiserror::Error;

// What a call tells that is not refused.
#[derive(Clone, Copy)]
pub(crate) enum Told {
    Done,
    Units(Tally),
    Foretold(Forecast),
    Figured(Option<Figures>),
}

// Why a call is refused.
#[derive(Debug, Drop, Error)]
pub(crate) enum Refused {
    #[error(transparent)]
    Call(#[from] Refusal),
    #[error(transparent)]
    File(#[from] Fault),
}

impl fmt::Display for Told {
    fn fmt<W: fmt::Write>(&self, f: &mut fmt::Formatter<W>) -> fmt::Result {
        match self {
            Told::Done => write!(f, "ok"),
            Told::Units(tally) => write!(
                f,
                "met {} missed {} failures {} first {}",
                tally.met,
                tally.missed,
                tally.failures,
                OrNone(tally.first)
            ),
            Told::Foretold(forecast) => write!(f, "{forecast}"),
            Told::Figured(figures) => write!(f, "{}", OrNone(*figures)),
        }
    }
}

// A value that may be missing, as it is printed.
#[derive(Clone, Copy)]
struct OrNone<T>(Option<T>);

impl<T: fmt::Display> fmt::Display for OrNone<T> {
    fn fmt<W: fmt::Write>(&self, f: &mut fmt::Formatter<W>) -> fmt::Result {
        match &self.0 {
            Some(value) => write!(f, "{value}"),
            None => write!(f, "none"),
        }
    }
}
