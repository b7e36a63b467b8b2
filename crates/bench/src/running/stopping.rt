ghost use Rattle.std.specs.Prelude.{◌≡◌};

use crate::laid::Laid;
use crate::running::Running;
use bus::Rule;

impl<R: Rule> Running<R> {
    // Stops the bench: it is laid as it was before the start.
    pub fn stop(self) -> Laid<R>
        ensures table { result.table ≡ self.table }
        ensures rule { result.rule ≡ self.rule }
    {
        let Running {
            rule,
            table,
            machine: _,
        } = self;
        Laid { rule, table }
    }
}
