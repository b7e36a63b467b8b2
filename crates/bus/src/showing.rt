ghost use Rattle.std.specs.Prelude.{◌≡◌};
ghost use Rattle.bus.specs.Rules as rules;
ghost use Rattle.bus.specs.Stands.{ready_of};
ghost use Rattle.model.specs.Ready.{Lawful};

use crate::bottoms::{Higher, Lower};
use crate::named::{Deh, Del, Dml, Drel, El, Ml};
use crate::ready::ReadyFrame;
use crate::rule::Rule;

// What every ready frame shows is lawful, so the laws of a rule hold of it.
pub fn ready_frames_are_lawful(frame: &ReadyFrame)
    ensures { Lawful (ready_of frame.now) }
{}

// Every value of a bottom means which slot its name puts first.
pub fn bottoms_mean(lower: &Lower, higher: &Higher)
    ensures lower { ⟦<Lower as Rule>⟧.before lower.now ≡ rules.lower_slot }
    ensures higher { ⟦<Higher as Rule>⟧.before higher.now ≡ rules.higher_slot }
{}

// Every value of a named rule means what the name says.
pub fn named_rules_mean(del: &Del, deh: &Deh, dml: &Dml, drel: &Drel, el: &El, ml: &Ml)
    ensures del { ⟦<Del as Rule>⟧.before del.now ≡ rules.del }
    ensures deh { ⟦<Deh as Rule>⟧.before deh.now ≡ rules.deh }
    ensures dml { ⟦<Dml as Rule>⟧.before dml.now ≡ rules.dml }
    ensures drel { ⟦<Drel as Rule>⟧.before drel.now ≡ rules.drel }
    ensures el { ⟦<El as Rule>⟧.before el.now ≡ rules.el }
    ensures ml { ⟦<Ml as Rule>⟧.before ml.now ≡ rules.ml }
{}
