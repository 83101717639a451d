// How many nodes there is room for, which reservoirs stand in the six places of each, and how the fractions of a sheet
// become them.

ghost use Rattle.equipment.specs.Equipped.{Provides, equipment, linear_of, standing};
ghost use Rattle.places.specs.declared.place.Place.TheVariants.{Sewer, Slow};
ghost use Rattle.places.specs.States.{state};
ghost use Rattle.std.specs.Prelude.{◌≡◌, IfOk, vec_len};

use command::command::{Fractions, PLACES};
use node::node::Node;
use places::fault::{PlacedFault, at};
use places::makes::Makes;
use places::place::Place;
use places::reservoirs::Reservoirs;
use reservoir::fault::Fault;
use reservoir::interface::Reservoir;
use reservoir::lag::Lag;
use reservoir::linear::Linear;
use reservoir::series::Series;
use session::equipment::Equipment;
use std::alloc::{AllocError, Global};

// The node cells of a district.
const CELLS: usize = 64;

pub struct Ram {}

impl Ram {
    // Node cells that no node is in.
    pub fn cells(heap: Global) -> Result<Vec<Option<Node<Reservoirs<Ram>>>>, AllocError>
        ensures { IfOk result (λ cells. vec_len cells ≡ 64) }
    {
        (0..CELLS).map(|_| None).collect(heap)
    }
}

// The sewer runs off a step late, the slow place through two reservoirs.
impl Makes for Ram {
    type Open = Linear;

    type Paved = Linear;

    type Sewer = Series<Linear, Lag>;

    type Surface = Linear;

    type Quick = Linear;

    type Slow = Series<Linear, Linear>;
}

impl Equipment for Ram {
    type Nodes = Reservoirs<Ram>;

    ghost equipped = { equipment };

    fn equip(fractions: &[Fractions; PLACES]) -> Result<Reservoirs<Ram>, PlacedFault> {
        let [open, paved, sewer, surface, quick, slow] = *fractions;
        Ok(Reservoirs::new(
            at(linear(open), Place::Open)?,
            at(linear(paved), Place::Paved)?,
            at(linear_then_lag(sewer), Place::Sewer)?,
            at(linear(surface), Place::Surface)?,
            at(linear(quick), Place::Quick)?,
            at(linear_twice(slow), Place::Slow)?,
        ))
    }
}

// A linear reservoir.
fn linear(fractions: Fractions) -> Result<Linear, Fault>
    ensures { let made = ⟦<Linear as Reservoir>⟧ in Provides (state made.settings made.cells) fractions (linear_of fractions) result }
{
    let recession = u64::from(fractions.recession);
    let retention = u64::from(fractions.retention);
    Linear::new(recession, retention)
}

// A linear reservoir followed by a lag of one step, which is never refused.
fn linear_then_lag(fractions: Fractions) -> Result<Series<Linear, Lag>, Fault>
    ensures { let made = ⟦<Series<Linear, Lag> as Reservoir>⟧ in Provides (state made.settings made.cells) fractions (standing Sewer fractions) result }
{
    Ok(Series::join(linear(fractions)?, Lag::new(1)?))
}

// Two linear reservoirs that are alike.
fn linear_twice(fractions: Fractions) -> Result<Series<Linear, Linear>, Fault>
    ensures { let made = ⟦<Series<Linear, Linear> as Reservoir>⟧ in Provides (state made.settings made.cells) fractions (standing Slow fractions) result }
{
    Ok(Series::join(linear(fractions)?, linear(fractions)?))
}
