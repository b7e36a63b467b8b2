use bench::Forecast;

// Where a list of calls ends: a forecast of the bench that then runs, a bench that is laid, or a call that the bench did not have.
// It has three ends, so it is neither an `Option` nor a `Result`.
#[derive(Clone, Copy)]
pub enum Replayed {
    Foretold(Forecast),
    Laid,
    NoSuchCall,
}
