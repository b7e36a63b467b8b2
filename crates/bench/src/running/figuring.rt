ghost use Rattle.std.specs.Prelude.{◌≡◌};
ghost use Rattle.bench.specs.Answers.{answer_of};
ghost use Rattle.bench.specs.Figures.{figures_of};
ghost use Rattle.bench.specs.Stands.{state_in};
ghost use Rattle.model.specs.Figures.{Measures, figures};
ghost use Rattle.model.specs.Forecast.{Holds, Tells};
ghost use Rattle.std.specs.Option.{option_map};

use crate::answer::Forecast;
use crate::figures::Figures;
use crate::running::Running;
use crate::running::foretelling::units_to_boundary;
use crate::search::round::Round;
use bus::Rule;

impl<R: Rule> Running<R> {
    // The figures of the round of a forecast that holds, so that no unit up to it fails.
    fn figures_between(&self, round: Round) -> Figures
        requires { Holds (R.before self.now.rule) (state_in self.now) round.from round.to }
        ensures { figures_of result ≡ figures (R.before self.now.rule) (state_in self.now) round.from round.to }
    {
        let period = self.period();
        let mut bus = self.machine;
        let units = units_to_boundary(bus.now(), period) + round.from * period;
        self.walk(&mut bus, units).unwrap();
        self.figures_over(bus, (round.to - round.from) * period)
    }

    // The forecast and its figures, by one search. A pair and no type of its own: the figures are missing just where the forecast fails,
    // but a forecast that is asked for alone has none.
    pub fn forecast_with_figures(&self) -> (Forecast, Option<Figures>)
        ensures forecast { Tells (R.before self.now.rule) (state_in self.now) (answer_of result.0) }
        ensures figures { Measures (R.before self.now.rule) (state_in self.now) (option_map figures_of result.1) }
    {
        let found = self.search();
        let figures = found.ok().map(|round| self.figures_between(round));
        (found.into(), figures)
    }

    // The figures of the forecast from here: those from its one boundary to the other if it holds, and none if it fails.
    pub fn figures(&self) -> Option<Figures>
        ensures { Measures (R.before self.now.rule) (state_in self.now) (option_map figures_of result) }
    {
        self.forecast_with_figures().1
    }
}
