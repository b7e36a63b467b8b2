ghost use Rattle.std.specs.Prelude.{◌≡◌, Some};
ghost use Rattle.bench.specs.Searches.{forecast_of};
ghost use Rattle.bench.specs.Texts.{forecast_text};

use crate::search::round::Round;
use bus::Failure;
use std::fmt;

// What is foretold of the quiet schedule: it never fails, and all histories agree at boundaries `from` and `to` and at no other two
// up to `to`; or its first dynamic failure.
// An enum of its own and not a `Result`: a schedule that fails is an answer and no error.
#[derive(Clone, Copy)]
pub enum Forecast {
    Holds { from: u64, to: u64 },
    Fails(Failure),
}

impl fmt::Display for Forecast {
    ghost output = { λ forecast. Some (forecast_text forecast) };

    fn fmt<W: fmt::Write>(&self, f: &mut fmt::Formatter<W>) -> fmt::Result {
        match self {
            Forecast::Holds { from, to } => write!(f, "holds {from} {to}"),
            Forecast::Fails(failure) => write!(f, "fails {failure}"),
        }
    }
}

impl From<Result<Round, Failure>> for Forecast {
    ghost from_gives = { λ found forecast. forecast ≡ forecast_of found };

    // What is foretold by the round or the failure that a search finds.
    fn from(found: Result<Round, Failure>) -> Forecast {
        match found {
            Ok(Round { from, to }) => Forecast::Holds { from, to },
            Err(failure) => Forecast::Fails(failure),
        }
    }
}
