// How refusals, layers and faults are printed.
ghost use Rattle.std.specs.Prelude.{Some};
ghost use Rattle.refusal.specs.Numbers.{label};
ghost use Rattle.refusal.specs.Texts.{fault_text, refusal_text};

use crate::{Fault, Layer, Refusal};
use std::error::Error;
use std::fmt;

impl fmt::Display for Refusal {
    ghost output = { λ refusal. Some (refusal_text refusal) };

    fn fmt<W: fmt::Write>(&self, f: &mut fmt::Formatter<W>) -> fmt::Result {
        let number = self.number();
        write!(f, "refused {number}")
    }
}

impl Error for Refusal {}

impl fmt::Display for Layer {
    ghost output = { λ layer. Some (label layer) };

    fn fmt<W: fmt::Write>(&self, f: &mut fmt::Formatter<W>) -> fmt::Result {
        f.write_str(self.name())
    }
}

impl fmt::Display for Fault {
    ghost output = { λ fault. Some (fault_text fault) };

    fn fmt<W: fmt::Write>(&self, f: &mut fmt::Formatter<W>) -> fmt::Result {
        let Fault {
            refusal,
            place,
            layer,
        } = self;
        write!(f, "{refusal} at {place} {layer}")
    }
}

impl Error for Fault {}
