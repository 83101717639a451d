// The calls of a node: opening, stepping, looking, its income and its storage.

ghost use Rattle.std.specs.Prelude.{◌≡◌, ◌-◌, ◌^◌, min, MatchResult};
ghost use Rattle.card.specs.Checking.{numbers_of};
ghost use Rattle.card.specs.Limits.{AreasWithin, Complete, ConcentrationsWithin};
ghost use Rattle.ground.specs.Limits.{InRange};
ghost use Rattle.node.specs.Answers.{Brings, Offers, Shows, Steps, store};
ghost use Rattle.node.specs.Laws.{MoreRainGivesNoLess, Sound, StaysSound, StepsBalance};
ghost use Rattle.node.specs.Stores.{opened, storage};
ghost use Rattle.node.specs.declared.fault.StepFault.TheVariants.{OutOfRange};

use crate::answer::{Flows, Income, View, Yield};
use crate::fault::StepFault;
use crate::node::Node;
use card::card::CheckedCard;
use ground::forcing::{CheckedForcing, Forcing};
use ground::ground::Ground;
use places::interface::Places;
use quantity::account::Account;
use quantity::water::{Centilitres, Depth};

impl<P: Places> Node<P> {
    // Opens a node on a card, which is spent, over six reservoirs, which are emptied. Of its makes the laws of nodes hold.
    pub fn open(card: CheckedCard, mut reservoirs: P) -> Self
        ensures opened { store P.Places.reservoirs result ≡ opened (numbers_of card) (P.Places.reservoirs reservoirs) }
        ensures stays_sound { StaysSound P.Places.makes }
        ensures steps_balance { StepsBalance P.Places.makes }
        ensures more_rain_gives_no_less { MoreRainGivesNoLess P.Places.makes }
    {
        let (areas, soil, concentrations) = card.parts();
        reservoirs.empty();
        Node {
            areas,
            concentrations,
            ground: Ground::new(soil),
            reservoirs,
        }
    }

    // Whether a step under a forcing would be accepted. Nothing is changed.
    pub fn offer(&self, forcing: Forcing) -> Result<(), StepFault>
        ensures { Offers (store P.Places.reservoirs self.now) forcing result }
    {
        let checked = in_range(forcing)?;
        self.reservoirs.offer(&self.plan(&checked).inflows)?;
        Ok(())
    }

    // One step under a forcing: all of it happens or nothing.
    pub fn step(&mut self, forcing: Forcing) -> Result<Yield, StepFault>
        ensures { Steps P.Places.makes (store P.Places.reservoirs self.old) forcing result (store P.Places.reservoirs self.new) }
    {
        let checked = in_range(forcing)?;
        let plan = self.plan(&checked);
        let given = self.reservoirs.take(&plan.inflows)?;
        self.ground = plan.ground;
        let flows = Flows {
            reservoirs: given,
            rising: plan.rising,
        };
        Ok(Yield {
            flows,
            evaporated: plan.evaporated,
            sunk: plan.sunk,
            loads: self.concentrations.loads(&flows.listed()),
        })
    }

    // What comes in under a forcing, over all areas.
    pub fn income(&self, forcing: Forcing) -> Income
        ensures { Brings (store P.Places.reservoirs self.now) forcing result }
    {
        let area = self.areas.total();
        Income {
            rain: forcing.rain * area,
            rise: forcing.rising_seepage() * area,
        }
    }

    // Looks at a node. Nothing is changed. The last two clauses hand on what the parts of a node carry in their types: every
    // node is sound, and its card was checked.
    pub fn look(&self) -> View
        ensures shows { Shows (store P.Places.reservoirs self.now) result }
        ensures sound { Sound P.Places.makes (store P.Places.reservoirs self.now) }
        ensures checked { AreasWithin self.now.areas.numbers
            × (ConcentrationsWithin self.now.concentrations.numbers.by_flow × Complete self.now.concentrations.numbers.by_flow) }
    {
        View {
            moisture: self.ground.moisture(),
            depression: self.ground.depression(),
            contents: self.reservoirs.contents(),
        }
    }

    // What a node holds, asked of its reservoirs; a sum too large for a volume is the largest volume.
    pub fn storage(&self) -> Centilitres
        ensures { result.0 ≡ min (storage (store P.Places.reservoirs self.now)) (2 ^ 64 - 1) }
    {
        // on the insides: an operator would have to ask for a bound, and by a rule of the project no public call does
        let ground = Depth(self.ground.moisture().0 + self.ground.depression().0);
        self.reservoirs
            .contents()
            .total()
            .plus(ground * self.areas.numbers().unpaved)
    }
}

// The forcing with its numbers checked, or its refusal.
fn in_range(forcing: Forcing) -> Result<CheckedForcing, StepFault>
    ensures { MatchResult result (λ checked. InRange forcing × (checked.numbers ≡ forcing)) (λ fault. (InRange forcing → ⊥) × (fault ≡ OutOfRange)) }
{
    forcing.check().ok_or(StepFault::OutOfRange)
}
